//! The words of a table's text, row by row.
ghost use Rattle.std.specs.Prelude.{◌≡◌, ℕ, List, ◌++◌, ◌∷◌, [], IfOk, OnOk};
ghost use Rattle.liberty_meaning.specs.TableText as spec;

use liberty_function::is_blank;
use std::alloc::Global;
use text_scan::{Items, NoMemory, Text};

#[derive(Drop)]
pub(crate) struct RowWords {
    pub(crate) words: Items<Text>,
}

/// The rows that a comma has ended, the words of the row that has begun, and the word that has begun.
#[derive(Drop)]
struct Cutting {
    rows: Items<RowWords>,
    row: Items<Text>,
    word: Vec<u8>,
}

#[tactic(auto, unfolding(crate::specs::TableText::ended))]
fn end_word(alloc: Global, cutting: &mut Cutting) -> Result<(), NoMemory>
    ensures { OnOk result ((cutting.new.rows ≡ cutting.old.rows) × (cutting.new.row ≡ cutting.old.row ++ spec.ended cutting.old.word.items) × (cutting.new.word.items ≡ [])) }
{
    if !cutting.word.is_empty() {
        let word = std::mem::replace(&mut cutting.word, Vec::new(alloc));
        cutting.row.push(Text::from_vec(word))?;
    }
    Ok(())
}

fn end_row(alloc: Global, cutting: &mut Cutting) -> Result<(), NoMemory>
    ensures { OnOk result ((cutting.new.rows ≡ cutting.old.rows ++ spec.row_words cutting.old.row ∷ []) × (cutting.new.row ≡ []) × (cutting.new.word.items ≡ cutting.old.word.items)) }
{
    let words = std::mem::replace(&mut cutting.row, Items::new(alloc));
    cutting.rows.push(RowWords { words })
}

#[tactic(auto, using(crate::proofs::TableLemmas::comma_cut, crate::proofs::TableLemmas::blank_cut, crate::proofs::TableLemmas::byte_cut))]
fn cut(alloc: Global, cutting: &mut Cutting, byte: u8) -> Result<(), NoMemory>
    ensures { OnOk result ((bs : List ℕ) → cutting.old.rows ++ spec.rows_from cutting.old.row cutting.old.word.items (byte ∷ bs) ≡ cutting.new.rows ++ spec.rows_from cutting.new.row cutting.new.word.items bs) }
{
    if byte == b',' {
        end_word(alloc, cutting)?;
        end_row(alloc, cutting)?;
        Ok(())
    } else if is_blank(byte) {
        end_word(alloc, cutting)
    } else {
        Ok(cutting.word.push(byte)?)
    }
}

#[tactic(auto, using(crate::proofs::TableLemmas::last_none, crate::proofs::TableLemmas::last_some))]
fn end_last_row(alloc: Global, cutting: &mut Cutting) -> Result<(), NoMemory>
    ensures { OnOk result (cutting.new.rows ≡ cutting.old.rows ++ spec.last_row cutting.old.row) }
{
    if cutting.row.len() > 0 {
        end_row(alloc, cutting)?;
    }
    Ok(())
}

/// The rows between commas, without a last one of blanks alone.
pub(crate) fn rows_of_text(alloc: Global, text: &[u8]) -> Result<Items<RowWords>, NoMemory>
    ensures { IfOk result (λ rows. rows ≡ spec.rows_of text.now) }
{
    let mut cutting = Cutting {
        rows: Items::new(alloc),
        row: Items::new(alloc),
        word: Vec::new(alloc),
    };
    for byte in text {
        cut(alloc, &mut cutting, *byte)?;
    }
    end_word(alloc, &mut cutting)?;
    end_last_row(alloc, &mut cutting)?;
    Ok(cutting.rows)
}
