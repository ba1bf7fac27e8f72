ghost use Rattle.std.specs.Prelude.{ℕ, List, ◌∷◌, [], ◌<◌, ◌^◌, IfSome, IfNone, codes, length};
ghost use Rattle.mk_words.specs.Words.{GivenTape, IsOrder, IsTurns, SaysSeed, SaysTape, IsNoForm};
ghost use Rattle.mk_words.specs.Forms.{AsksSo, SaysTapeSo};

use crate::elements::are_elements;
use crate::numbers::{are_probes, number_of};
use mk_base::{TOP_ORDER, Words};

/// What the words ask for, with the words of elements as they stand.
#[derive(Clone, Copy)]
pub enum Form<'a> {
    /// To compile a source at an order.
    Compile {
        order: u8,
    },
    /// To check a bundle.
    Check,
    /// To evaluate a source on public inputs and secrets.
    Eval {
        publics: &'a [u8],
        secrets: &'a [u8],
    },
    /// To run the code of a bundle on public inputs, secrets and a tape.
    Run {
        publics: &'a [u8],
        secrets: &'a [u8],
        tape: TapeForm<'a>,
    },
    /// To count the tapes of the code of a bundle on public inputs, the secrets of two worlds and probes.
    Count {
        publics: &'a [u8],
        first: &'a [u8],
        second: &'a [u8],
        probes: &'a [u8],
    },
    /// To report on a bundle.
    Report,
    /// To write the generator's text with so many turns.
    Gen {
        turns: u32,
    },
    /// To compile that text at an order.
    Trial {
        turns: u32,
        order: u8,
    },
    /// To write a source that gives the elements of a table.
    Table,
    /// To judge a gadget.
    Gadget,
    /// To allocate registers for the code of a bundle.
    Regs,
}

/// Where a tape comes from, with its word of elements as it stands.
#[derive(Clone, Copy)]
pub enum TapeForm<'a> {
    /// From a seed.
    Seed { seed: [u8; 32] },
    /// From this word of elements.
    Elements { word: &'a [u8] },
}

/// What the words ask for. It takes no memory.
pub fn form_asked(words: &Words) -> Option<Form<'_>>
    ensures asked { IfSome result (AsksSo words.now) }
    ensures none { IfNone result (IsNoForm words.now) }
{
    match words.as_slice() {
        [name] => one_word(name.as_slice()),
        [name, word] => two_words(name.as_slice(), word.as_slice()),
        [name, first, second] => {
            three_words(name.as_slice(), first.as_slice(), second.as_slice())
        }
        [name, first, second, third, fourth] => five_words(
            name.as_slice(),
            first.as_slice(),
            second.as_slice(),
            third.as_slice(),
            fourth.as_slice(),
        ),
        _ => None,
    }
}

/// What one word asks for.
fn one_word<'a>(name: &[u8]) -> Option<Form<'a>>
    ensures asked { IfSome result (AsksSo (name.now ∷ [])) }
    ensures none { IfNone result (IsNoForm (name.now ∷ [])) }
{
    if name == b"check".as_slice() {
        return Some(Form::Check);
    }
    if name == b"report".as_slice() {
        return Some(Form::Report);
    }
    if name == b"table".as_slice() {
        return Some(Form::Table);
    }
    if name == b"gadget".as_slice() {
        return Some(Form::Gadget);
    }
    if name == b"regs".as_slice() {
        return Some(Form::Regs);
    }
    None
}

/// What two words ask for.
fn two_words<'a>(name: &[u8], word: &[u8]) -> Option<Form<'a>>
    ensures asked { IfSome result (AsksSo (name.now ∷ word.now ∷ [])) }
    ensures none { IfNone result (IsNoForm (name.now ∷ word.now ∷ [])) }
{
    if name == b"compile".as_slice() {
        let order = order_of(word)?;
        return Some(Form::Compile { order });
    }
    if name == b"gen".as_slice() {
        let turns = turns_of(word)?;
        return Some(Form::Gen { turns });
    }
    None
}

/// What three words ask for.
fn three_words<'a>(name: &[u8], first: &'a [u8], second: &'a [u8]) -> Option<Form<'a>>
    requires first { length first.now < 2 ^ 32 }
    requires second { length second.now < 2 ^ 32 }
    ensures asked { IfSome result (AsksSo (name.now ∷ first.now ∷ second.now ∷ [])) }
    ensures none { IfNone result (IsNoForm (name.now ∷ first.now ∷ second.now ∷ [])) }
{
    if name == b"eval".as_slice() {
        return eval_asked(first, second);
    }
    if name == b"trial".as_slice() {
        let turns = turns_of(first)?;
        let order = order_of(second)?;
        return Some(Form::Trial { turns, order });
    }
    None
}

/// What five words ask for.
fn five_words<'a>(
    name: &[u8],
    first: &'a [u8],
    second: &'a [u8],
    third: &'a [u8],
    fourth: &'a [u8],
) -> Option<Form<'a>>
    requires first { length first.now < 2 ^ 32 }
    requires second { length second.now < 2 ^ 32 }
    requires third { length third.now < 2 ^ 32 }
    requires fourth { length fourth.now < 2 ^ 32 }
    ensures asked { IfSome result (AsksSo (name.now ∷ first.now ∷ second.now ∷ third.now ∷ fourth.now ∷ [])) }
    ensures none { IfNone result (IsNoForm (name.now ∷ first.now ∷ second.now ∷ third.now ∷ fourth.now ∷ [])) }
{
    if name == b"run".as_slice() {
        return run_asked(first, second, third, fourth);
    }
    if name == b"count".as_slice() {
        return count_asked(first, second, third, fourth);
    }
    None
}

/// What the words behind `eval` ask for.
fn eval_asked<'a>(publics: &'a [u8], secrets: &'a [u8]) -> Option<Form<'a>>
    requires publics { length publics.now < 2 ^ 32 }
    requires secrets { length secrets.now < 2 ^ 32 }
    ensures asked { IfSome result (AsksSo (codes "eval" ∷ publics.now ∷ secrets.now ∷ [])) }
    ensures none { IfNone result (IsNoForm (codes "eval" ∷ publics.now ∷ secrets.now ∷ [])) }
{
    if !are_elements(publics) || !are_elements(secrets) {
        return None;
    }
    Some(Form::Eval { publics, secrets })
}

/// What the words behind `count` ask for.
fn count_asked<'a>(
    publics: &'a [u8],
    first: &'a [u8],
    second: &'a [u8],
    probes: &'a [u8],
) -> Option<Form<'a>>
    requires publics { length publics.now < 2 ^ 32 }
    requires first { length first.now < 2 ^ 32 }
    requires second { length second.now < 2 ^ 32 }
    requires probes { length probes.now < 2 ^ 32 }
    ensures asked { IfSome result (AsksSo (codes "count" ∷ publics.now ∷ first.now ∷ second.now ∷ probes.now ∷ [])) }
    ensures none { IfNone result (IsNoForm (codes "count" ∷ publics.now ∷ first.now ∷ second.now ∷ probes.now ∷ [])) }
{
    if !are_elements(publics) || !are_elements(first) || !are_elements(second) {
        return None;
    }
    if !are_probes(probes) {
        return None;
    }
    Some(Form::Count {
        publics,
        first,
        second,
        probes,
    })
}

/// What the words behind `run` ask for.
fn run_asked<'a>(
    publics: &'a [u8],
    secrets: &'a [u8],
    kind: &[u8],
    word: &'a [u8],
) -> Option<Form<'a>>
    requires publics { length publics.now < 2 ^ 32 }
    requires secrets { length secrets.now < 2 ^ 32 }
    requires word { length word.now < 2 ^ 32 }
    ensures asked { IfSome result (AsksSo (codes "run" ∷ publics.now ∷ secrets.now ∷ kind.now ∷ word.now ∷ [])) }
    ensures none { IfNone result (IsNoForm (codes "run" ∷ publics.now ∷ secrets.now ∷ kind.now ∷ word.now ∷ [])) }
{
    if !are_elements(publics) || !are_elements(secrets) {
        return None;
    }
    let tape = tape_asked(kind, word)?;
    Some(Form::Run {
        publics,
        secrets,
        tape,
    })
}

/// Where two words say that the tape comes from.
fn tape_asked<'a>(kind: &[u8], word: &'a [u8]) -> Option<TapeForm<'a>>
    requires { length word.now < 2 ^ 32 }
    ensures found { IfSome result (SaysTapeSo kind.now word.now) }
    ensures none { IfNone result ((tape : GivenTape) → SaysTape kind.now word.now tape → ⊥) }
{
    if kind == b"seed".as_slice() {
        let seed = seed_of(word)?;
        return Some(TapeForm::Seed { seed });
    }
    if kind == b"tape".as_slice() && are_elements(word) {
        return Some(TapeForm::Elements { word });
    }
    None
}

/// The seed that a word says.
fn seed_of(word: &[u8]) -> Option<[u8; 32]>
    ensures found { IfSome result (SaysSeed word.now) }
    ensures none { IfNone result ((seed : List ℕ) → SaysSeed word.now seed → ⊥) }
{
    let mut seed = [0; 32];
    match hex::decode_to_slice(word, &mut seed) {
        Ok(()) => Some(seed),
        Err(_) => None,
    }
}

/// The order that a word says.
fn order_of(word: &[u8]) -> Option<u8>
    ensures found { IfSome result (IsOrder word.now) }
    ensures none { IfNone result ((order : ℕ) → IsOrder word.now order → ⊥) }
{
    let most = u32::from(TOP_ORDER);
    let order = number_of(word)?;
    if order == 0 || order > most {
        return None;
    }
    Some(order as u8)
}

/// The number of turns that a word says.
fn turns_of(word: &[u8]) -> Option<u32>
    ensures found { IfSome result (IsTurns word.now) }
    ensures none { IfNone result ((turns : ℕ) → IsTurns word.now turns → ⊥) }
{
    let turns = number_of(word)?;
    if turns == 0 || turns > MOST_TURNS {
        return None;
    }
    Some(turns)
}

/// The most turns of a generated text.
const MOST_TURNS: u32 = 3276;
