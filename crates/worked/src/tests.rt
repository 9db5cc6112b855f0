use lines::forms::LineForm;
use lines::readings::Reading;
use measurement::complaints::{Argument, Complaint};
use measurement::running::prepare;
use measurement::settings::Settings;
use measurement::taps::add_tap;
use model::faults::Fault;
use model::frames::{Event, Fields, Frame};
use model::machines::Machine;
use model::refusals::Refusal;
use model::sides::Side;
use model::threads::Answer;
use staircase::Staircase;

/// Number and item of the refusal of a staircase.
// A tuple and no `Refusal`, and four numbers and no struct: the rules' list goes by these numbers, and `Staircase::new` is the test that is tried.
fn staircase_refusal(
    start_line: u32,
    wanted: u32,
    show_cell: usize,
    result_cell: usize,
) -> Option<(u8, u32)> {
    Staircase::new(start_line, wanted, show_cell, result_cell)
        .err()
        .map(|refusal| (u8::from(refusal), refusal.item()))
}

#[test]
fn staircases_in_range_are_made(rt: HostRuntime) {
    assert!(rt; staircase_refusal(0, 1, 0, 0).is_none());
    assert!(rt; staircase_refusal(13, 15, 63, 63).is_none());
}

#[test]
fn staircases_out_of_range_are_refused(rt: HostRuntime) {
    assert_eq!(rt; staircase_refusal(14, 1, 0, 0), Some((6, 0)));
    assert_eq!(rt; staircase_refusal(0, 0, 0, 0), Some((6, 0)));
    assert_eq!(rt; staircase_refusal(0, 16, 0, 0), Some((6, 0)));
    assert_eq!(rt; staircase_refusal(0, 1, 64, 0), Some((6, 0)));
    assert_eq!(rt; staircase_refusal(0, 1, 0, 64), Some((6, 0)));
}

#[test]
fn a_short_buffer_is_refused_and_kept(rt: HostRuntime) {
    let reading = Reading { label: 9, value: 7 };
    let mut out = [b'x'; 12];
    let refusal = reading.write_line(&mut out);
    assert!(rt; refusal == Err(Refusal::BufferTooShort));
    assert!(rt; out == [b'x'; 12]);
    assert!(rt; reading == Reading { label: 9, value: 7 });
    assert_eq!(rt; u8::from(Refusal::BufferTooShort), 14);
    assert_eq!(rt; Refusal::BufferTooShort.item(), 0);
}

#[test]
fn a_line_keeps_what_follows_it(rt: HostRuntime) {
    let mut out = [b'x'; 15];
    let written = Reading {
        label: 0x1A2F,
        value: -2,
    }
    .write_line(&mut out);
    assert!(rt; written == Ok(13));
    assert!(rt; out == *b"1A2FFFFFFFFE\nxx");
}

/// The fault that a step ends in.
// Place and work numbers are no struct: see `Machine::step`.
fn fault_of(place: u16, work: [i32; 4], answer: Answer) -> Option<Fault> {
    Staircase::new(5, 2, 0, 1)
        .ok()?
        .step(place, &work, &[0; 64], answer)
        .err()
}

/// A fault of the machine layer.
fn machine_fault(cause: u8) -> Option<Fault> {
    Some(Fault {
        cause,
        layer: 2,
        node: 0,
    })
}

#[test]
fn faults_have_their_causes(rt: HostRuntime) {
    assert_eq!(rt; fault_of(5, [0; 4], Answer::Done), machine_fault(2));
    assert_eq!(rt; fault_of(2, [5, 0, 0, 0], Answer::Got(2)), machine_fault(3));
    assert_eq!(rt;
        fault_of(2, [14, 0, 0, 0], Answer::Got(2)),
        machine_fault(4)
    );
    assert_eq!(rt; fault_of(1, [5, 2, 0, 0], Answer::Done), machine_fault(4));
    assert_eq!(rt; fault_of(3, [5, 0, 16, 0], Answer::Done), machine_fault(4));
    assert_eq!(rt; fault_of(3, [5, 0, 0, -2], Answer::Done), machine_fault(4));
    assert_eq!(rt; fault_of(2, [13, 1, 15, -1], Answer::Fork(1)), None);
}

fn complaint_about(start_line: &str, wanted_reversals: &str, label: &str) -> Option<Complaint> {
    Settings::read(start_line, wanted_reversals, label).err()
}

#[test]
fn the_bad_argument_is_named(rt: HostRuntime) {
    assert!(rt; complaint_about("5", "4", "65535").is_none());
    assert!(rt; complaint_about("x", "", "") == Some(Complaint::NotANumber(Argument::StartLine)));
    assert!(rt;
        complaint_about("5", "-4", "") == Some(Complaint::NotANumber(Argument::WantedReversals))
    );
    assert!(rt; complaint_about("5", "4", "65536") == Some(Complaint::NotANumber(Argument::Label)));
}

/// The argument that a staircase is refused for.
fn refused_argument(start_line: u32, wanted_reversals: u32) -> Option<Argument> {
    let settings = Settings {
        start_line,
        wanted_reversals,
        label: 1,
    };
    match prepare(settings) {
        Err(Complaint::Refused { argument, .. }) => Some(argument),
        _ => None,
    }
}

#[test]
fn the_refused_argument_is_named(rt: HostRuntime) {
    assert!(rt; refused_argument(13, 15).is_none());
    assert!(rt; refused_argument(14, 16) == Some(Argument::StartLine));
    assert!(rt; refused_argument(13, 16) == Some(Argument::WantedReversals));
    assert!(rt; refused_argument(0, 0) == Some(Argument::WantedReversals));
}

#[test]
fn a_line_that_is_no_tap_is_named(rt: HostRuntime) {
    let mut taps = Vec::new(rt.alloc());
    assert!(rt; add_tap(&mut taps, b"1").is_ok());
    assert!(rt; add_tap(&mut taps, b"0").is_ok());
    assert!(rt; add_tap(&mut taps, b"") == Err(Complaint::NoTap { line: 3 }));
    assert!(rt; add_tap(&mut taps, b"2") == Err(Complaint::NoTap { line: 3 }));
    assert!(rt; add_tap(&mut taps, b"1 ") == Err(Complaint::NoTap { line: 3 }));
    assert_eq!(rt; taps.len(), 2);
}

#[test]
fn frames_have_their_fields(rt: HostRuntime) {
    let rested = Frame {
        side: None,
        label: 0,
        event: Event::Rested,
    };
    let none = Fields {
        side: 0,
        event: 0,
        label: 0,
        value: 0,
        layer: 0,
        node: 0,
        place: 0,
    };
    assert_eq!(rt; Fields::from(rested), none);
    let fault = Fault {
        cause: 1,
        layer: 2,
        node: 3,
    };
    let faulted = Frame {
        side: Some(Side::Patient),
        label: 9,
        event: Event::Faulted { fault, place: 4 },
    };
    let all = Fields {
        side: 2,
        event: 9,
        label: 9,
        value: 1,
        layer: 2,
        node: 3,
        place: 4,
    };
    assert_eq!(rt; Fields::from(faulted), all);
}
