//! Cuts bytes by their class.

ghost use Rattle.std.specs.Prelude.{◌≡◌};
ghost use Rattle.gdp_grammar.specs.Classes.{front, rest};
ghost use Rattle.gdp_grammar.specs.Classes.{belongs as belongs_of};

use gdp_grammar::Class;

/// Whether the byte begins a name.
fn is_start(byte: u8) -> bool
    ensures { result ≡ belongs_of Class.Start byte }
{
    byte.is_ascii_lowercase() || byte.is_ascii_uppercase() || byte == b'_'
}

/// Whether the byte belongs to the class.
pub fn belongs(class: Class, byte: u8) -> bool
    ensures { result ≡ belongs_of class byte }
{
    match class {
        Class::Line => byte != b'\n',
        Class::Content => byte != b'#',
        Class::Blank => byte == b' ' || byte == b'\t',
        Class::Word => !(byte == b' ' || byte == b'\t'),
        Class::Digit => byte.is_ascii_digit(),
        Class::Start => is_start(byte),
        Class::Name => is_start(byte) || byte.is_ascii_digit() || byte == b'.',
    }
}

/// The bytes at the front that belong to the class, and what follows them.
pub fn split_front(bytes: &[u8], class: Class) -> (&[u8], &[u8])
    ensures front { result.0.now ≡ front class bytes.now }
    ensures rest { result.1.now ≡ rest class bytes.now }
{
    let mut end = 0;
    'bytes: while end < bytes.len() && belongs(class, bytes[end]) {
        end += 1;
    }
    (&bytes[..end], &bytes[end..])
}
