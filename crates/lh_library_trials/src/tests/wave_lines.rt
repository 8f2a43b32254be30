//! What no run writes: codes of signals past the first ones, and a value that is a time.
use lh_text_buffer::Text;
use lh_time::Delay;
use lh_types::memory::NoMemory;
use lh_types::val::Val;
use lh_wave::code::put_code;
use lh_wave::value::put_value;
use std::alloc::Global;

/// The codes of these signals, each with a space behind it.
fn codes(alloc: Global, signals: &[u64]) -> Result<Vec<u8>, NoMemory> {
    let mut to = Text::new(alloc);
    for signal in signals {
        put_code(&mut to, *signal);
        to.put(b" ");
    }
    to.finish()
}

#[test]
fn codes_of_signals(rt: HostRuntime) {
    let signals = [0, 1, 93, 94, 95, 187, 188, 8_835, 8_836];
    let codes = codes(rt.alloc(), &signals).expect(&rt, "memory");
    assert!(rt; codes.as_slice() == b"! \" ~ !\" \"\" ~\" !# ~~ !!\" ".as_slice());
}

/// The text of a time.
fn time(alloc: Global) -> Result<Vec<u8>, NoMemory> {
    let time = Val::Time(Delay {
        fs: 1,
        delta: 2,
        eps: 3,
    });
    let mut to = Text::new(alloc);
    put_value(&mut to, &time);
    to.finish()
}

#[test]
fn a_time(rt: HostRuntime) {
    let time = time(rt.alloc()).expect(&rt, "memory");
    assert!(rt; time.as_slice() == b"1fs 2d 3e".as_slice());
}
