//! What the errors of the program display: the text of the error within.
use gix_ref_program::refusal::Refusal;
use gix_ref_program::update::UpdateError;
use gix_ref_store::file::transaction::{commit, prepare};
use std::alloc::Global;
use std::fmt::Display;
use std::process::Abort;

fn shown<T: Display>(rt: &impl Abort, alloc: Global, value: &T) -> String {
    value.to_string(alloc).expect(rt, "memory")
}

#[test]
fn errors_display_the_one_within(rt: HostRuntime) {
    let alloc = rt.alloc();
    let device = shown(&rt, alloc, &prepare::Error::DeviceName);
    let update = UpdateError::Prepare(prepare::Error::DeviceName);
    assert_eq!(rt;
        shown(&rt, alloc, &update),
        device,
        "an update that was not prepared"
    );
    let refusal = Refusal::Update(update);
    assert_eq!(rt;
        shown(&rt, alloc, &refusal),
        device,
        "a line with such an update"
    );

    let memory = shown(&rt, alloc, &commit::Error::Memory);
    let update = UpdateError::Commit(commit::Error::Memory);
    assert_eq!(rt;
        shown(&rt, alloc, &update),
        memory,
        "an update whose commit failed"
    );

    let missing = shown(&rt, alloc, &Refusal::NotFound);
    assert_eq!(rt; missing.as_str(), "there is no such reference");
}
