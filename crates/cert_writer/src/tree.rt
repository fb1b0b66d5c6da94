//! The lines of a proof.

ghost use Rattle.std.specs.Prelude.{◌≡◌, ◌∷◌, ◌++◌, OnOk, true};
ghost use Rattle.std.specs.List.{list_all};
ghost use Rattle.proof_tree.specs.declared.proof.Node.TheVariants.{Split as as_node};
ghost use Rattle.text_grammar.specs.Printing.{spaced};
ghost use Rattle.cert_grammar.specs.Answers.{exact_text_line};
ghost use Rattle.cert_grammar.specs.Laws.{IsFittingProof};
ghost use Rattle.cert_grammar.specs.Nodes.{node_words, node_fits, pair_fits, are_short};
ghost use Rattle.cert_grammar.specs.Nodes.{pair_word as word_of_pair, pair_words};
ghost use Rattle.cert_grammar.specs.Trees.{tree_lines};
ghost use Rattle.cert_writer.specs.Parts.{words_text, tree_part};

use crate::word::put_signed;
use gdp_io::Text;
use outcomes::Memory;
use proof_tree::{Node, Nodes, Proof, Split};
use std::alloc::Global;
use text_printer::{end_line, put_natural, put_whole};

// A blank, and a multiplier behind its row.
#[tactic(auto, using(crate::proofs::Fitting::pair_fit))]
fn put_pair(alloc: Global, text: &mut Text, pair: (u32, i128)) -> Result<(), Memory>
    ensures text { OnOk result (text.new ≡ text.old ++ 32 ∷ word_of_pair pair) }
    ensures fits { OnOk result (pair_fits pair ≡ true) }
{
    put_natural(alloc, text, pair.0 as u128)?;
    text.push(alloc, b':')?;
    put_signed(alloc, text, pair.1)
}

// The multipliers, with a blank before each.
#[tactic(auto, using(crate::proofs::Fitting::pairs_start, crate::proofs::Fitting::pairs_more, crate::proofs::Fitting::pairs_all))]
fn put_pairs(alloc: Global, text: &mut Text, mults: &[(u32, i128)]) -> Result<(), Memory>
    ensures text { OnOk result (text.new ≡ text.old ++ spaced (pair_words mults.now)) }
    ensures fits { OnOk result (are_short mults.now ≡ true) }
{
    for pair in mults {
        put_pair(alloc, text, *pair)?;
    }
    Ok(())
}

// The line of a split, without its end.
#[tactic(auto, using(crate::proofs::Fitting::int_fit, crate::proofs::Fitting::short_fit))]
fn put_split(alloc: Global, text: &mut Text, split: Split) -> Result<(), Memory>
    ensures text { OnOk result (text.new ≡ text.old ++ exact_text_line (node_words (as_node split))) }
    ensures fits { OnOk result (node_fits (as_node split) ≡ true) }
{
    match split {
        Split::Int { column, at } => {
            text.append(alloc, b"int")?;
            put_natural(alloc, text, column as u128)?;
            put_whole(alloc, text, at)
        }
        Split::Truth { id } => {
            text.append(alloc, b"truth")?;
            put_natural(alloc, text, id as u128)
        }
    }
}

// The line of a node, without its end.
#[tactic(auto, using(crate::proofs::Fitting::bounded_fit, crate::proofs::Fitting::short_fit))]
fn put_node(alloc: Global, text: &mut Text, node: &Node) -> Result<(), Memory>
    ensures text { OnOk result (text.new ≡ text.old ++ exact_text_line (node_words node.now)) }
    ensures fits { OnOk result (node_fits node.now ≡ true) }
{
    match node {
        Node::Split(split) => put_split(alloc, text, *split),
        Node::Refuted(mults) => {
            text.append(alloc, b"refuted")?;
            put_pairs(alloc, text, mults.as_slice())
        }
        Node::Bounded { scale, mults } => {
            text.append(alloc, b"bounded")?;
            put_whole(alloc, text, *scale)?;
            put_pairs(alloc, text, mults.as_slice())
        }
        Node::LogicFalse(place) => {
            text.append(alloc, b"logic")?;
            put_natural(alloc, text, *place as u128)
        }
    }
}

// A line for each node, and the end.
#[tactic(auto, using(crate::proofs::Fitting::node_fit, crate::proofs::Fitting::all_fit))]
fn put_nodes(alloc: Global, text: &mut Text, nodes: Nodes<'_>) -> Result<(), Memory>
    ensures text { OnOk result (text.new ≡ text.old ++ words_text (tree_lines nodes.entry)) }
    ensures fits { OnOk result (list_all node_fits nodes.entry ≡ true) }
{
    let mut left = nodes;
    'nodes: while let Some(node) = left.next(alloc)? {
        put_node(alloc, text, &node)?;
        end_line(alloc, text)?;
    }
    text.append(alloc, b"end\n")
}

// The lines of a proof behind those of a point.
#[tactic(auto, using(crate::proofs::Written::tree_parts, crate::proofs::Fitting::proof_list))]
pub(crate) fn put_tree(alloc: Global, text: &mut Text, proof: &Proof) -> Result<(), Memory>
    ensures text { OnOk result (text.new ≡ text.old ++ words_text (tree_part proof.now)) }
    ensures proof { OnOk result (IsFittingProof proof.now) }
{
    text.append(alloc, b"tree\n")?;
    put_nodes(alloc, text, proof.nodes())
}
