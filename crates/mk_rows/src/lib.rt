//! Rows of the top call: what it answers, writes and tells, over sources and sinks in memory, some calls of which
//! fail. This crate has tests alone. A crate with tests is proved twice, with and without them, so those of the top
//! call stand apart from it; rows that only vary an input are in `.ci/rows.table`, which the built program is run on.
#![tactic(auto)]

#[cfg(test)]
mod gadgets;
#[cfg(test)]
mod hostile;
#[cfg(test)]
mod outside;
#[cfg(test)]
mod row;
#[cfg(test)]
mod tables;
#[cfg(test)]
mod texts;

#[cfg(test)]
mod tests {
    use crate::outside::{CALM, Outside};
    use crate::row::{Row, holds_each, words_of};
    use crate::texts::{ONE_TURN, REFRESHED, SBOX, SUM, SUM_BUNDLE, SUM_REGISTERS};
    use mk_base::{DropSink, Memory, SureSource};
    use mk_top::{Status, mask_main};
    use std::test::*;

    #[test]
    fn each_command_is_carried_out(rt: HostRuntime) -> Result<(), Memory> {
        let rows: [Row; 11] = [
            Row::done(&["compile", "1"], SUM, SUM_REGISTERS),
            Row::done(&["check"], SUM_BUNDLE, "accepted\n"),
            Row::done(&["regs"], SUM_BUNDLE, SUM_REGISTERS),
            Row::done(&["check"], SUM_REGISTERS, "accepted\n"),
            // FIPS 197, section 5.1.1: the S-box at 53 is ed.
            Row::done(&["eval", "-", "53"], SBOX, "ed\n"),
            // The words 0 and 1 of ChaCha20's stream of zeros have the low bytes 76 and a0 (RFC 8439, appendix A.1).
            Row::done(
                &["run", "-", "5783", "tape", "76a0"],
                SUM_BUNDLE,
                "0 02d6 d4\n",
            ),
            Row::done(
                &["count", "-", "00", "01", "6"],
                REFRESHED,
                "00 6 6\n01 2 2\nequal\n",
            ),
            Row::done(
                &["report"],
                REFRESHED,
                "s0 input 0 0 1 b1.1\nb0 refresh 3 1 1 b1.0\nb1 mul 9 1 0 -\ntotal 2 12 2 7\n",
            ),
            Row::done(&["gen", "1"], "", ONE_TURN),
            Row::done(
                &["trial", "1", "1"],
                "",
                "blocks 8 refreshes 1 instructions 23 randoms 2 accepted\n",
            ),
            Row::refused(&["check"], "", Status::Bundle, "41 bundle 1\n"),
        ];
        assert!(rt; holds_each(rt.alloc(), &CALM, &rows)?);
        Ok(())
    }

    #[test]
    fn nothing_is_read_for_other_words_and_for_commands_without_an_input(
        rt: HostRuntime,
    ) -> Result<(), Memory> {
        // The first read would fail.
        let unread = Outside {
            reads: &[1],
            ..CALM
        };
        let rows: [Row; 3] = [
            Row::refused(&["compile", "16"], SUM, Status::Words, "21 words\n"),
            Row::refused(
                &["trial", "2470", "8"],
                "",
                Status::Source,
                "38 large size\n",
            ),
            Row::refused(&["check"], SUM_BUNDLE, Status::ReadFault, "6 read fault\n"),
        ];
        assert!(rt; holds_each(rt.alloc(), &unread, &rows)?);
        Ok(())
    }

    #[test]
    fn faults_of_the_outside_are_told(rt: HostRuntime) -> Result<(), Memory> {
        let late = Outside {
            reads: &[2],
            ..CALM
        };
        let read = [
            Row::refused(&["compile", "1"], SUM, Status::ReadFault, "6 read fault\n"),
            Row::refused(&["check"], SUM_BUNDLE, Status::ReadFault, "6 read fault\n"),
        ];
        assert!(rt; holds_each(rt.alloc(), &late, &read)?);
        // A failing error output changes no status.
        let untold = Outside {
            tells: &[1],
            ..late
        };
        let silent = [Row::refused(&["compile", "1"], SUM, Status::ReadFault, "")];
        assert!(rt; holds_each(rt.alloc(), &untold, &silent)?);
        // The third write fails: the output took the first two pieces.
        let cut = Outside {
            writes: &[3],
            ..CALM
        };
        let write = [Row {
            words: &["compile", "1"],
            input: SUM,
            status: Status::WriteFault,
            out: "mask 2\nfield gf256\norder 1\nsecre",
            err: "7 write fault\n",
        }];
        assert!(rt; holds_each(rt.alloc(), &cut, &write)?);
        // The second write of four bytes fails.
        let short = Outside {
            piece: 4,
            writes: &[2],
            ..CALM
        };
        let accepted = [Row {
            words: &["check"],
            input: SUM_BUNDLE,
            status: Status::WriteFault,
            out: "acce",
            err: "7 write fault\n",
        }];
        assert!(rt; holds_each(rt.alloc(), &short, &accepted)?);
        Ok(())
    }

    #[test]
    fn a_source_and_sinks_that_never_fail_serve(rt: HostRuntime) -> Result<(), Memory> {
        let alloc = rt.alloc();
        let words = words_of(alloc, &["check"])?;
        let mut src = SureSource::new(SUM_BUNDLE.as_bytes());
        let (mut out, mut err) = (DropSink::new(), DropSink::new());
        assert!(rt; mask_main(alloc, &words, &mut src, &mut out, &mut err) == Status::Done);
        Ok(())
    }
}
