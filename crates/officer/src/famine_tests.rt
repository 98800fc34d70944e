// What takes no memory. Each test passes when every request for memory from some one on is refused,
// which `make refusals` tries.
use crate::fault::Cause;
use crate::forms::Form;
use crate::surroundings_tests::{Full, is_near, says, takes};

#[test]
fn want_of_memory_told(rt: HostRuntime) {
    says(&rt, Cause::Memory, "officer: no memory", 3);
    assert!(rt; takes(&mut Full { room: 6 }));
    assert!(rt; !takes(&mut Full { room: 3 }));
}

#[test]
fn nearest_form_told(rt: HostRuntime) {
    says(&rt, Cause::Words(None), "officer: bad command line", 2);
    let reach = "officer: usage: officer reach G X";
    is_near(&rt, &["reason", "g"], Some(Form::Reach), reach);
    let all = "officer: officer --help lists all forms";
    is_near(&rt, &["fly", "g"], None, all);
}
