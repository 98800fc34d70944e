// The number of workers, which shows in no report.
use crate::test_words::calls_for;
use tg_reports::{Call, Command};

#[test]
fn words_of_a_table(rt: HostRuntime) {
    let (right, workers) = ("r", 4);
    let table = Call::File(Command::Table { right, workers }, "g");
    calls_for(&rt, &["table", "g", "r"], table);
    let workers = 16;
    let table = Call::File(Command::Table { right, workers }, "g");
    calls_for(&rt, &["table", "g", "r", "--workers", "0016"], table);
}
