//! What the words of a command line ask for. Lines without a form are tried by the data of `lh_trials`.
use lh_args::command::{Command, FileCommand, Simulate, command_of};
use lh_types::list::{ByteList, TextList};
use lh_types::memory::NoMemory;
use std::alloc::Global;

/// The words of a line, between spaces.
fn words(alloc: Global, line: &str) -> Result<TextList, NoMemory> {
    let mut words = TextList::new(alloc);
    for word in line.split(' ') {
        words.push(ByteList::from_vec(Vec::from_slice(alloc, word.as_bytes())?))?;
    }
    Ok(words)
}

/// The simulation that a command asks for.
fn simulation<'a>(command: Option<Command<'a>>) -> Option<Simulate<'a>> {
    match command {
        Some(Command::OnFile(FileCommand::Simulate(asked))) => Some(asked),
        _ => None,
    }
}

/// The first three titles, and whether there are more.
fn titles<'a>(asked: Simulate<'a>) -> ([Option<&'a [u8]>; 3], bool) {
    let mut titles = asked.titles();
    let three = [titles.next(), titles.next(), titles.next()];
    (three, titles.next().is_some())
}

#[test]
fn options_in_any_order(rt: HostRuntime) {
    let line = "simulate --watch b --vcd --steps 0000012 --watch --top --top %p --watch c";
    let words = words(rt.alloc(), line).expect(&rt, "memory");
    let asked = simulation(command_of(&words)).expect(&rt, "a simulation");
    assert!(rt; asked.top.sigil == b'%' && asked.top.name == b"p".as_slice());
    assert!(rt; asked.steps == 12 && asked.vcd);
    let three = [
        Some(b"b".as_slice()),
        Some(b"--top".as_slice()),
        Some(b"c".as_slice()),
    ];
    assert!(rt; titles(asked) == (three, false));
}

/// Whether the words ask for a self-test of a thousand links.
fn is_greatest_self_test(alloc: Global) -> Result<bool, NoMemory> {
    let words = words(alloc, "selftest 1000")?;
    Ok(matches!(command_of(&words), Some(Command::Selftest(1000))))
}

#[test]
fn links_of_a_self_test(rt: HostRuntime) {
    assert!(rt; is_greatest_self_test(rt.alloc()) == Ok(true));
}
