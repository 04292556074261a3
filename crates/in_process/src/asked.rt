//! Words and files in memory.
ghost use Rattle.std.specs.Prelude.{◌≡◌, ◌≢◌, ◌∷◌, [], map, All, IsUtf8, IfOk, IfErr, OnOk};
ghost use Rattle.mc_world.specs.CalmShelfState.{new_calm_shelf};
ghost use Rattle.in_process.specs.declared.reply.NoReply.TheVariants as no_reply;
ghost use Rattle.in_process.specs.Asked.{pair, IsAnswered, AskForThreads, HasCause};

use crate::reply::{NoReply, reply_alone};
use mc_world::CalmShelf;
use replies::Reply;
use std::alloc::{AllocError, Global};

/// What the program answers to the words, where the file named `1` has the first bytes, the one named `2` the second, and
/// there is no other.
pub fn ask_in_process(
    alloc: Global,
    words: &[&[u8]],
    first: &[u8],
    second: &[u8],
) -> Result<Reply, NoReply>
    ensures reply { IfOk result (IsAnswered (map (λ w. w.now) words.now) first.now second.now) }
    ensures cause { IfErr result (HasCause (map (λ w. w.now) words.now)) }
    ensures alone { OnOk result (¬ AskForThreads (map (λ w. w.now) words.now)) }
    // A word that is not UTF-8 comes before any other cause but a failed allocation.
    ensures utf8 { OnOk result (All IsUtf8 (map (λ w. w.now) words.now)) }
    ensures threads { IfErr result (λ e. e ≡ no_reply.Threads → All IsUtf8 (map (λ w. w.now) words.now)) }
{
    let words = texts(alloc, words)?;
    let mut shelf = shelf_of(alloc, first, second)?;
    reply_alone(alloc, &words, &mut shelf)
}

// The words as texts.
fn texts<'a>(alloc: Global, words: &[&'a [u8]]) -> Result<Vec<&'a str>, NoReply>
    ensures texts { IfOk result (λ texts. map (λ t. t.now) texts.items ≡ map (λ w. w.now) words.now) }
    ensures cause { IfErr result (HasCause (map (λ w. w.now) words.now)) }
    ensures utf8 { OnOk result (All IsUtf8 (map (λ w. w.now) words.now)) }
    ensures read { IfErr result (λ e. e ≢ no_reply.Threads) }
{
    let mut texts = Vec::new(alloc);
    for word in words {
        let text = text_of(word)?;
        if texts.push(text).is_err() {
            return Err(NoReply::Memory);
        }
    }
    Ok(texts)
}

fn text_of(word: &[u8]) -> Result<&str, NoReply>
    ensures text { IfOk result (λ text. text.now ≡ word.now) }
    ensures utf8 { OnOk result (IsUtf8 word.now) }
    ensures read { IfErr result (λ e. e ≡ no_reply.NotText) }
    ensures cause { IfErr result (HasCause (word.now ∷ [])) }
{
    match std::str::from_utf8(word) {
        Ok(text) => Ok(text),
        Err(_) => Err(NoReply::NotText),
    }
}

// A shelf with the two files.
fn shelf_of(alloc: Global, first: &[u8], second: &[u8]) -> Result<CalmShelf, AllocError>
    ensures { IfOk result (λ shelf. shelf ≡ new_calm_shelf (pair first.now second.now)) }
{
    let mut files = Vec::new(alloc);
    files.push((String::from_str(alloc, "1")?, first.to_vec(alloc)?))?;
    files.push((String::from_str(alloc, "2")?, second.to_vec(alloc)?))?;
    Ok(CalmShelf::new(alloc, files))
}
