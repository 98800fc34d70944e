// What takes no memory. Each test passes when every request for memory from some one on is refused,
// which `make refusals` tries.
use crate::test_words::{asks_for, calls_for, no_call};
use tg_reports::{Call, Command, Request};

#[test]
fn words_read(rt: HostRuntime) {
    let (rights, x, y) = ("r", "a", "c");
    calls_for(&rt, &[], Call::Input);
    let share = Call::File(Command::Share { rights, x, y }, "g");
    calls_for(&rt, &["share", "g", "r", "a", "c"], share);
    let script = Call::Files(Command::Run, "g", "s");
    calls_for(&rt, &["run", "g", "s"], script);
    calls_for(&rt, &["race", "g", "s"], Call::Race("g", "s"));
    calls_for(
        &rt,
        &["reach", "g", "a"],
        Call::File(Command::Reach { x }, "g"),
    );
    let verify = Call::Files(Command::Verify { why: true }, "g", "p");
    calls_for(&rt, &["verify", "g", "p", "--why"], verify);
    let right = "r";
    let kept: &[&str] = &["--keep", "a", "b"];
    let cut = Call::File(Command::Cut { right, x, y, kept }, "g");
    let words = ["cut", "g", "r", "a", "c", "--keep", "a", "b"];
    calls_for(&rt, &words, cut);
    no_call(&rt, &["fly", "g"]);
}

#[test]
fn words_alone_read(rt: HostRuntime) {
    asks_for(&rt, &["--help"], Request::Help);
    asks_for(&rt, &["-V"], Request::Version);
    no_call(&rt, &["check"]);
}
