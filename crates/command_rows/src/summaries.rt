//! Summaries of generated traces: the numbers are those of an independent model.
use crate::fixtures::same;
use rams_replay::Status;
use std::test::Fail;
use trace_rows::{PIECES, let_go, written};

const ONE_BLOCK: &str =
    "rams-made 7 1\nevents 11\ntook 10\naccept 0\nagain 0\nrefuse 0\nburst 0\nrepair 0\nend 0\nbytes 0\ndone\n";

const FOUR_BLOCKS: &str =
    "rams-made 7 4\nevents 47\ntook 40\naccept 1\nagain 0\nrefuse 0\nburst 30\nrepair 0\nend 1\nbytes 22020\ndone\n";

const MANY_BLOCKS: &str =
    "rams-made 7 2000\nevents 23500\ntook 20000\naccept 500\nagain 0\nrefuse 0\nburst 20000\nrepair 467\nend 500\nbytes 16358117\ndone\n";

/// Words, how many bytes the sink takes, and how the command ends with what text.
const ROWS: &[(&[&str], usize, Status, &str)] = &[
    (&["make", "7", "1"], 1_000, Status::Done, ONE_BLOCK),
    (&["make", "7", "4"], 1_000, Status::Done, FOUR_BLOCKS),
    (&["make", "7", "2000"], 1_000, Status::Done, MANY_BLOCKS),
    (&["make", "7", "0"], 1_000, Status::Words, ""),
    (&["make", "7"], 1_000, Status::Words, ""),
    (&["make", "7", "1", "1"], 1_000, Status::Words, ""),
    (&["make", "x", "1"], 1_000, Status::Words, ""),
    (&["make", "07", "1"], 1_000, Status::Words, ""),
    (&["make", "7", "50001"], 1_000, Status::Words, ""),
    (&["make", "4294967296", "1"], 1_000, Status::Words, ""),
    // A sink that is full fails.
    (&["make", "7", "1"], 0, Status::WriteFault, ""),
    (
        &["make", "7", "1"],
        14,
        Status::WriteFault,
        "rams-made 7 1\n",
    ),
];

#[test]
fn summaries_are_those_of_the_generated_trace(rt: HostRuntime) -> Result<(), Fail> {
    for (place, (words, room, status, text)) in ROWS.iter().enumerate() {
        let input = Vec::new(rt.alloc());
        let (got, written) = written(rt.alloc(), words, input, PIECES, PIECES, *room)?;
        same(&rt, &got, status, &place);
        same(&rt, &written.as_slice(), &text.as_bytes(), &place);
        let_go(written);
    }
    Ok(())
}
