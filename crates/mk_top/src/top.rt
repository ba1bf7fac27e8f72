ghost use Rattle.std.specs.Prelude.{◌≡◌, ◌≢◌, ◌≤◌, ◌<◌, ◌^◌, ◌⊎◌, ℕ, List, Option, None, codes, IfSome, IfOk, IfErr};
ghost use Rattle.std.specs.Prelude.{OnOk, length};
ghost use Rattle.mk_base.specs.Outside.{Rose};
ghost use Rattle.mk_words.specs.declared.status.Status.{Status};
ghost use Rattle.mk_words.specs.Words.{Command, Compile, Check, Eval, Run, Count, Report, Gen, Trial, Table, Gadget};
ghost use Rattle.mk_words.specs.Words.{Regs, GivenTape};
ghost use Rattle.mk_words.specs.Words.{Asks, IsForm, IsNoForm};
ghost use Rattle.mk_words.specs.Forms.{AreElements, AreProbes, IsTapeForm};
ghost use Rattle.mk_top.specs.declared.fault.Fault.{Fault};
ghost use Rattle.mk_top.specs.Seen.{seen};
ghost use Rattle.mk_top.specs.Forms.{OfElements, OfRun, OfCount};
ghost use Rattle.mk_top.specs.Faults.{status_of, fault_line};
ghost use Rattle.mk_top.specs.Decided.{Decides, limit_of};
ghost use Rattle.mk_top.specs.Headline.{Compiles, CompilesSo, Checks, Allocates, Evaluates, Reports, Generates, Tries};
ghost use Rattle.mk_top.specs.Headline.{Makes, TakesWhole, TakesSome};
ghost use Rattle.mk_top.specs.Because.{Because, Reads, input_of, Tells, answer_status, IsOrMemory, ReadsToEnd};
ghost use Rattle.mk_top.specs.Because.{ReadWhole, WritesNothing, IsAnswerOf};
ghost use Rattle.mk_top.specs.Runs.{Runs};
ghost use Rattle.mk_top.specs.Counts.{Counts};
ghost use Rattle.mk_top.specs.Tables.{Tabulates};
ghost use Rattle.mk_top.specs.Gadgets.{Judges};
ghost use Rattle.mk_top.specs.Running.{Finished, Stopped, ReadsOrLeaves, Made, NoText, IsMade, IsUnmade};

use crate::answer::{Answer, bundle_answer, text_answer};
use crate::bundle::checked_text;
use crate::counts::counted_text;
use crate::fault::Fault;
use crate::gadgets::judged_text;
use crate::registers::allocated_bundle;
use crate::reports::reported_text;
use crate::runs::{WholeTape, ran_text};
use crate::source::{compiled_bundle, evaluated_text};
use crate::tables::tabulated_text;
use crate::trials::{generated_text, tried_text};
use mk_base::{Bytes, Sink, Source, Words, write_all};
use mk_words::{Form, Status, TapeForm, elements_of, form_asked, probes_of};
use std::alloc::Global;

/// Tells a fault by its line. Whether the line was taken changes nothing.
fn tell<E: Sink>(err: &mut E, fault: Fault)
    ensures line { TakesSome (E.taken err.old) (fault_line fault) (E.taken err.new) }
    ensures whole { (Rose (E.faults err.old) (E.faults err.new) → ⊥)
        → TakesWhole (E.taken err.old) (fault_line fault) (E.taken err.new) }
    ensures never_falls { E.faults err.old ≤ E.faults err.new }
{
    let line = fault.line();
    let _ = write_all(err, line.as_str().as_bytes());
}

/// The line of the outputs of the source that is read, on the elements that two words say.
fn evaluated_on_words<S: Source>(
    alloc: Global,
    src: &mut S,
    publics: &[u8],
    secrets: &[u8],
) -> Result<Bytes, Fault>
    requires publics { AreElements publics.now × (length publics.now < 2 ^ 32) }
    requires secrets { AreElements secrets.now × (length secrets.now < 2 ^ 32) }
    ensures made { IfOk result (λ text. OfElements publics.now secrets.now
        (λ command. Made command (seen S.left S.faults src.old src.new) text)) }
    ensures unmade { IfErr result (λ fault. OfElements publics.now secrets.now
        (λ command. NoText command (seen S.left S.faults src.old src.new) fault)) }
    ensures reads { S.faults src.old ≤ S.faults src.new }
{
    let publics = elements_of(alloc, publics)?;
    let secrets = elements_of(alloc, secrets)?;
    evaluated_text(alloc, src, publics.as_slice(), secrets.as_slice())
}

/// The lines of the outputs of a run of the bundle that is read, on the elements that two words say, with the tape
/// that the words give.
fn run_on_words<S: Source>(
    alloc: Global,
    src: &mut S,
    publics: &[u8],
    secrets: &[u8],
    tape: TapeForm<'_>,
) -> Result<Bytes, Fault>
    requires publics { AreElements publics.now × (length publics.now < 2 ^ 32) }
    requires secrets { AreElements secrets.now × (length secrets.now < 2 ^ 32) }
    requires tape { IsTapeForm tape }
    ensures made { IfOk result (λ text. OfRun publics.now secrets.now tape.entry
        (λ command. Made command (seen S.left S.faults src.old src.new) text)) }
    ensures unmade { IfErr result (λ fault. OfRun publics.now secrets.now tape.entry
        (λ command. NoText command (seen S.left S.faults src.old src.new) fault)) }
    ensures reads { S.faults src.old ≤ S.faults src.new }
{
    let publics = elements_of(alloc, publics)?;
    let secrets = elements_of(alloc, secrets)?;
    let (publics, secrets) = (publics.as_slice(), secrets.as_slice());
    match tape {
        TapeForm::Seed { seed } => ran_text(alloc, src, publics, secrets, WholeTape::Seed { seed }),
        TapeForm::Elements { word } => {
            let elements = elements_of(alloc, word)?;
            let elements = elements.as_slice();
            ran_text(
                alloc,
                src,
                publics,
                secrets,
                WholeTape::Elements { elements },
            )
        }
    }
}

/// The lines of the table of the bundle that is read, on the elements and probes that four words say.
fn counted_on_words<S: Source>(
    alloc: Global,
    src: &mut S,
    publics: &[u8],
    first: &[u8],
    second: &[u8],
    probes: &[u8],
) -> Result<Bytes, Fault>
    requires publics { AreElements publics.now × (length publics.now < 2 ^ 32) }
    requires first { AreElements first.now × (length first.now < 2 ^ 32) }
    requires second { AreElements second.now × (length second.now < 2 ^ 32) }
    requires probes { AreProbes probes.now × (length probes.now < 2 ^ 32) }
    ensures made { IfOk result (λ text. OfCount publics.now first.now second.now probes.now
        (λ command. Made command (seen S.left S.faults src.old src.new) text)) }
    ensures unmade { IfErr result (λ fault. OfCount publics.now first.now second.now probes.now
        (λ command. NoText command (seen S.left S.faults src.old src.new) fault)) }
    ensures reads { S.faults src.old ≤ S.faults src.new }
{
    let publics = elements_of(alloc, publics)?;
    let first = elements_of(alloc, first)?;
    let second = elements_of(alloc, second)?;
    let probes = probes_of(alloc, probes)?;
    counted_text(
        alloc,
        src,
        publics.as_slice(),
        first.as_slice(),
        second.as_slice(),
        probes.as_slice(),
    )
}

/// What the command answers which the words ask for. Nothing of it is written yet.
fn answer_asked<S: Source>(alloc: Global, words: &Words, src: &mut S) -> Result<Answer, Fault>
    ensures made { IfOk result (IsMade words.now (seen S.left S.faults src.old src.new)) }
    ensures unmade { IfErr result (IsUnmade words.now
        (seen S.left S.faults src.old src.new)) }
    ensures unread { IfErr result (λ fault. fault ≡ Fault.Words → src.new ≡ src.old) }
    ensures leaves { ReadsOrLeaves words.now (src.new ≡ src.old) }
    ensures reads { S.faults src.old ≤ S.faults src.new }
{
    match form_asked(words) {
        None => Err(Fault::Words),
        Some(Form::Compile { order }) => bundle_answer(compiled_bundle(alloc, src, order)),
        Some(Form::Check) => text_answer(checked_text(alloc, src)),
        Some(Form::Eval { publics, secrets }) => {
            text_answer(evaluated_on_words(alloc, src, publics, secrets))
        }
        Some(
            Form::Run {
                publics,
                secrets,
                tape,
            },
        ) => text_answer(run_on_words(alloc, src, publics, secrets, tape)),
        Some(
            Form::Count {
                publics,
                first,
                second,
                probes,
            },
        ) => text_answer(counted_on_words(alloc, src, publics, first, second, probes)),
        Some(Form::Report) => text_answer(reported_text(alloc, src)),
        Some(Form::Gen { turns }) => text_answer(generated_text(alloc, turns)),
        Some(Form::Trial { turns, order }) => text_answer(tried_text(alloc, turns, order)),
        Some(Form::Table) => text_answer(tabulated_text(alloc, src)),
        Some(Form::Gadget) => text_answer(judged_text(alloc, src)),
        Some(Form::Regs) => bundle_answer(allocated_bundle(alloc, src)),
    }
}

/// Carries out what the words ask for: its answer is made, and then written.
fn carry_out<S: Source, O: Sink>(
    alloc: Global,
    words: &Words,
    src: &mut S,
    out: &mut O,
) -> Result<(), Fault>
    ensures finished { OnOk result ((command : Command) × Asks words.now command
        × Finished command (seen S.left S.faults src.old src.new)
        (seen O.taken O.faults out.old out.new)) }
    ensures stopped { IfErr result (Stopped words.now
        (seen S.left S.faults src.old src.new)
        (seen O.taken O.faults out.old out.new)) }
    ensures unread { IfErr result (λ fault. fault ≡ Fault.Words → src.new ≡ src.old) }
    ensures leaves { ReadsOrLeaves words.now (src.new ≡ src.old) }
    ensures unwritten { IfErr result (λ fault. fault ≢ Fault.WriteFault → out.new ≡ out.old) }
    ensures reads { S.faults src.old ≤ S.faults src.new }
    ensures writes { O.faults out.old ≤ O.faults out.new }
{
    let answer = answer_asked(alloc, words, src)?;
    answer.write(out)
}

/// Carries out the command that the words ask for, reading from `src`, writing its text to `out` and,
/// where the answer is not `Done`, one fault line to `err`.
///
/// The forms of the words are `compile T`, T being a decimal number from 1 to 15, which reads a source of at
/// most 1,048,576 bytes and writes the bundle text of its masked code at order T, over as few registers as can be; `check`, which reads a
/// bundle text of at most 268,435,456 bytes and writes `accepted` and a line feed; `eval P S`, which
/// reads a source and writes its outputs on the public inputs P and the secrets S as one word of elements
/// and a line feed; `run P S seed X` and `run P S tape X`, which read a bundle and write, for each output
/// of its code on P and S, a line with its number, the word of its shares and the word of their sum;
/// `count P A B Q`, which reads a bundle and writes, for each list of values that the positions Q of a run of its code
/// show on P and the secrets A or on P and the secrets B, a line with the word of these values and the number of
/// tapes for A and for B, and then `equal` or `differs`; `report`, which reads a bundle, checks it, and writes what
/// its values cost and which places of products they reach; `gen K`, K being a decimal number from 1 to 3,276, which
/// reads nothing and writes a source with K turns; `trial K T`, which reads nothing and writes a line on what that
/// source is compiled to at order T; `table`, which reads 256 bytes, the elements of a table, and writes a source
/// that gives them; `gadget`, which reads a gadget text of at most 65,536 bytes and writes whether it is strong, and
/// whether its value is right; and `regs`, which reads a bundle, checks it, and writes the bundle text of its code over
/// as few registers as can be, with the same certificate. A bundle is read of either version, of code over positions or
/// over registers. The X of a seed is 64 hexadecimal digits, and that of a tape is its elements. A word of elements is
/// `-` for none, or two hexadecimal digits of either case for each. Q is `-` for none, or decimal numbers below 2^32
/// with commas between.
/// All memory is taken before the first byte is written.
pub fn mask_main<S: Source, O: Sink, E: Sink>(
    alloc: Global,
    words: &Words,
    src: &mut S,
    out: &mut O,
    err: &mut E,
) -> Status
    // Words that are no form are refused at once, without memory, and nothing is read.
    ensures words { (result ≡ Status.Words) ⊎ IsForm words.now }
    ensures words_only { result ≡ Status.Words → IsNoForm words.now × (src.new ≡ src.old) }

    // What `compile` wrote is the text of register code and a certificate: the register code gives sharings of the
    // program's result, is private, and is accepted with the certificate.
    ensures compiled { (order : ℕ) → Asks words.now (Compile order) → result ≡ Status.Done
        → (written : List ℕ) × Compiles order (S.left src.old) written
        × TakesWhole (O.taken out.old) written (O.taken out.new) }

    // And the code that this is allocated for, and the certificate, are made of the program's values and maps, with refreshes where uses need them.
    ensures made { (order : ℕ) → Asks words.now (Compile order) → result ≡ Status.Done
        → (written : List ℕ) × CompilesSo order (S.left src.old) written
        × TakesWhole (O.taken out.old) written (O.taken out.new) }

    // What `check` accepts is private, whoever wrote it, and over registers at its writes too.
    ensures checked { Asks words.now Check → result ≡ Status.Done
        → Checks (S.left src.old) × TakesWhole (O.taken out.old) (codes "accepted\n") (O.taken out.new) }

    // What `eval` wrote is the result of the program on the inputs.
    ensures evaluated { (publics secrets : List ℕ) → Asks words.now (Eval publics secrets) → result ≡ Status.Done
        → (written : List ℕ) × Evaluates publics secrets (S.left src.old) written
        × TakesWhole (O.taken out.old) written (O.taken out.new) }

    // What `run` wrote are the shares and values of the outputs of one run of the code on the inputs and the tape.
    ensures ran { (publics secrets : List ℕ) (tape : GivenTape) → Asks words.now (Run publics secrets tape)
        → result ≡ Status.Done
        → (written : List ℕ) × Runs publics secrets tape (S.left src.old) written
        × TakesWhole (O.taken out.old) written (O.taken out.new) }

    // What `count` wrote is the table of what the probes show in two worlds, with the numbers of tapes.
    ensures counted { (publics first second probes : List ℕ) → Asks words.now (Count publics first second probes)
        → result ≡ Status.Done
        → (written : List ℕ) × Counts publics first second probes (S.left src.old) written
        × TakesWhole (O.taken out.old) written (O.taken out.new) }

    // What `report` wrote is the report of what `check` accepts.
    ensures reported { Asks words.now Report → result ≡ Status.Done
        → (written : List ℕ) × Reports (S.left src.old) written
        × TakesWhole (O.taken out.old) written (O.taken out.new) }

    // What `gen` wrote spells a program that is well typed and whose execution comes to its end.
    ensures generated { (turns : ℕ) → Asks words.now (Gen turns) → result ≡ Status.Done
        → (written : List ℕ) × Generates turns written × TakesWhole (O.taken out.old) written (O.taken out.new) }

    // What `trial` wrote tells of the code and certificate that this program is compiled to.
    ensures tried { (turns order : ℕ) → Asks words.now (Trial turns order) → result ≡ Status.Done
        → (written : List ℕ) × Tries turns order written × TakesWhole (O.taken out.old) written (O.taken out.new) }

    // What `table` wrote is a source that gives the elements of the table that was read.
    ensures tabulated { Asks words.now Table → result ≡ Status.Done
        → (written : List ℕ) × Tabulates (S.left src.old) written
        × TakesWhole (O.taken out.old) written (O.taken out.new) }

    // What `gadget` wrote is what is known of the gadget that was read: a verdict, and whether its value is right.
    ensures judged { Asks words.now Gadget → result ≡ Status.Done
        → (written : List ℕ) × Judges (S.left src.old) written
        × TakesWhole (O.taken out.old) written (O.taken out.new) }

    // What `regs` wrote is the text of the register code of what `check` accepts, and `check` accepts this text too.
    ensures allocated { Asks words.now Regs → result ≡ Status.Done
        → (written : List ℕ) × Allocates (S.left src.old) written
        × TakesWhole (O.taken out.old) written (O.taken out.new) }

    // Where the output failed, it took the command's text as far as a prefix.
    ensures cut { (command : Command) → Asks words.now command → result ≡ Status.WriteFault
        → (written : List ℕ) × Makes command (input_of command (S.left src.old)) written
        × TakesSome (O.taken out.old) written (O.taken out.new) }

    // Each answer other than `Done` has its cause, of which the fault line tells.
    ensures because { (command : Command) → Asks words.now command → result ≢ Status.Done
        → (fault : Fault) × (status_of fault ≡ result)
        × Because command (seen S.left S.faults src.old src.new)
        (seen O.taken O.faults out.old out.new) fault
        × Tells fault (seen E.taken E.faults err.old err.new) }
    ensures told { result ≡ Status.Words
        → Tells Fault.Words (seen E.taken E.faults err.old err.new) }
    ensures answers { (command : Command) → Asks words.now command → IsAnswerOf command result }

    // And each cause has its answer: where no count of faults rose, the bytes of the input decide it, or
    // memory was wanted. An answer other than `Done` doesn't depend on the output's count.
    ensures decided { (command : Command) (answer : Option Fault) → Asks words.now command
        → (Rose (S.faults src.old) (S.faults src.new) → ⊥)
        → (answer ≡ None → Rose (O.faults out.old) (O.faults out.new) → ⊥)
        → IfSome (input_of command (S.left src.old))
        (λ bytes. Decides command bytes answer → IsOrMemory result (answer_status answer)) }

    // What was read, and what was written.
    ensures read { (command : Command) → Asks words.now command → ReadsToEnd result
        → ReadWhole (limit_of command) (input_of command (S.left src.old)) (input_of command (S.left src.new)) }
    ensures unread { (command : Command) → Asks words.now command → (Reads command → ⊥) → src.new ≡ src.old }
    ensures output { WritesNothing result → out.new ≡ out.old }
    ensures silent { result ≡ Status.Done → err.new ≡ err.old }
{
    match carry_out(alloc, words, src, out) {
        Ok(()) => Status::Done,
        Err(fault) => {
            tell(err, fault);
            fault.status()
        }
    }
}
