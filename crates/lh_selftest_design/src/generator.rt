//! The text of a chain of registers, as long as is asked for, with a testbench.
ghost use Rattle.std.specs.Prelude.{◌≡◌, ◌++◌, ◌<◌, ◌^◌, IfOk, OnOk, decimal};
ghost use Rattle.std.specs.List.{flat_map, range_with_len};
ghost use Rattle.lh_selftest_design.specs.Generated as text;
ghost use Rattle.lh_selftest_design.specs.Generated.{signals_of, register_line, adder_line, instances_of, chain};

use lh_types::memory::NoMemory;
use lh_types::text::{put, put_number};
use std::alloc::Global;

/// The chain up to the signals of its links.
const CHAIN_BEGINS: &[u8] = b"entity @chain () -> () {
    %z1 = const i1 0
    %z = const i32 0
    %o = const i32 1
    %clk = sig i1 %z1
    %x0 = sig i32 %o
";

/// The chain after the instances of its links.
const CHAIN_ENDS: &[u8] = b"    inst @tb (i32$ %x1) -> (i1$ %clk)
}
";

/// The register of a link.
const REGISTER: &[u8] = b"proc @ff (i1$ %clk, i32$ %d) -> (i32$ %q) {
init:
    %clk0 = prb i1$ %clk
    wait %check, %clk
check:
    %clk1 = prb i1$ %clk
    %chg = neq i1 %clk0, %clk1
    %posedge = and i1 %chg, %clk1
    br %posedge, %init, %event
event:
    %dp = prb i32$ %d
    %delay = const time 0s 1d
    drv i32$ %q, %dp after %delay
    br %init
}
";

/// The adder of a link.
const ADDER: &[u8] = b"proc @comb (i32$ %q, i32$ %x) -> (i32$ %d) {
entry:
    %qp = prb i32$ %q
    %xp = prb i32$ %x
    %s = add i32 %qp, %xp
    %t = const time 0s 1d
    drv i32$ %d, %s after %t
    wait %entry, %q, %x
}
";

/// The testbench: eight ticks of the clock, and after each an assertion on the first register.
const TESTBENCH: &[u8] = b"proc @tb (i32$ %q) -> (i1$ %clk) {
entry:
    %z = const i32 0
    %one = const i32 1
    %eight = const i32 8
    %b0 = const i1 0
    %b1 = const i1 1
    %t1 = const time 1ns
    %t2 = const time 2ns
    %n = var i32 %z
    br %loop
loop:
    drv i1$ %clk, %b1 after %t1
    drv i1$ %clk, %b0 after %t2
    wait %next for %t2
next:
    %i = ld i32* %n
    %i1 = add i32 %i, %one
    st i32* %n, %i1
    %qp = prb i32$ %q
    %ok = eq i32 %qp, %i1
    call void @llhd.assert (i1 %ok)
    %c = ult i32 %i1, %eight
    br %c, %done, %loop
done:
    halt
}
";

/// The text of a chain of `links` registers with an adder each, and of its testbench.
pub fn generated(alloc: Global, links: u32) -> Result<Vec<u8>, NoMemory>
    ensures { IfOk result (λ made. made.items ≡ text.generated links) }
{
    let mut to = Vec::new(alloc);
    put_chain(&mut to, links)?;
    put(&mut to, REGISTER)?;
    put(&mut to, ADDER)?;
    put(&mut to, TESTBENCH)?;
    Ok(to)
}

/// Puts the entity of the chain at the end of a text.
fn put_chain(to: &mut Vec<u8>, links: u32) -> Result<(), NoMemory>
    ensures { OnOk result (to.new.items ≡ to.old.items ++ chain links) }
{
    put(to, CHAIN_BEGINS)?;
    put_all_signals(to, links)?;
    put_all_instances(to, links)?;
    put(to, CHAIN_ENDS)
}

/// Puts the signals of all links at the end of a text.
fn put_all_signals(to: &mut Vec<u8>, links: u32) -> Result<(), NoMemory>
    ensures { OnOk result (to.new.items ≡ to.old.items ++ flat_map signals_of (range_with_len 0 links)) }
{
    for i in 0..links {
        put_signals(to, i.into())?;
    }
    Ok(())
}

/// Puts the instances of all links at the end of a text.
fn put_all_instances(to: &mut Vec<u8>, links: u32) -> Result<(), NoMemory>
    ensures { OnOk result (to.new.items ≡ to.old.items ++ flat_map instances_of (range_with_len 0 links)) }
{
    for i in 0..links {
        put_instances(to, i.into())?;
    }
    Ok(())
}

/// Puts the two signals of a link at the end of a text.
fn put_signals(to: &mut Vec<u8>, i: u64) -> Result<(), NoMemory>
    requires { i < 2 ^ 32 }
    ensures { OnOk result (to.new.items ≡ to.old.items ++ signals_of i) }
{
    put_numbered(to, b"    %d", i)?;
    put_numbered(to, b" = sig i32 %z\n    %x", i + 1)?;
    put(to, b" = sig i32 %z\n")
}

/// Puts the two instances of a link at the end of a text.
fn put_instances(to: &mut Vec<u8>, i: u64) -> Result<(), NoMemory>
    requires { i < 2 ^ 32 }
    ensures { OnOk result (to.new.items ≡ to.old.items ++ instances_of i) }
{
    put_register(to, i)?;
    put_adder(to, i)
}

/// Puts the instance of a link's register at the end of a text.
fn put_register(to: &mut Vec<u8>, i: u64) -> Result<(), NoMemory>
    requires { i < 2 ^ 32 }
    ensures { OnOk result (to.new.items ≡ to.old.items ++ register_line i) }
{
    put_numbered(to, b"    inst @ff (i1$ %clk, i32$ %d", i)?;
    put_numbered(to, b") -> (i32$ %x", i + 1)?;
    put(to, b")\n")
}

/// Puts the instance of a link's adder at the end of a text.
fn put_adder(to: &mut Vec<u8>, i: u64) -> Result<(), NoMemory>
    requires { i < 2 ^ 32 }
    ensures { OnOk result (to.new.items ≡ to.old.items ++ adder_line i) }
{
    put_numbered(to, b"    inst @comb (i32$ %x", i + 1)?;
    put_numbered(to, b", i32$ %x", i)?;
    put_numbered(to, b") -> (i32$ %d", i)?;
    put(to, b")\n")
}

/// Puts words and then a number at the end of a text.
fn put_numbered(to: &mut Vec<u8>, words: &[u8], number: u64) -> Result<(), NoMemory>
    ensures { OnOk result (to.new.items ≡ to.old.items ++ (words.now ++ decimal number)) }
{
    put(to, words)?;
    put_number(to, number)
}
