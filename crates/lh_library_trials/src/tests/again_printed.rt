//! A text that a person may write, printed and read again.
ghost use Rattle.std.specs.Prelude.{◌≡◌, ◌≤◌, length};

use lh_print::print;
use lh_print_round_trip::{print_and_read, read_spelled};
use lh_read::TextFault;

const TEXT: &[u8] = b"entity @t(i1$ %c)->(){\n%z=const i8 -1 ; ones\n%a = sig i8 %z\n}\n";

const CANONICAL: &[u8] =
    b"entity @t (i1$ %c) -> () {\n    %z = const i8 255\n    %a = sig i8 %z\n}\n";

#[test]
fn what_is_printed_reads_again(rt: HostRuntime) {
    let first = read_spelled(rt.alloc(), TEXT).expect(&rt, "it reads");
    let printed = print(rt.alloc(), &first).expect(&rt, "it is printed");
    assert_eq!(rt; printed.as_slice(), CANONICAL);
    assert!(rt; printed.len() <= 67_108_864);
    let again = print_and_read(rt.alloc(), &first).expect(&rt, "it reads again");
    let twice = print(rt.alloc(), &again).expect(&rt, "it is printed again");
    assert_eq!(rt; twice.as_slice(), CANONICAL);
}

#[test]
fn names_the_first_faulty_line(rt: HostRuntime) {
    let fault = read_spelled(rt.alloc(), b"entity @t () -> () {\n}}\n").err();
    assert_eq!(rt; fault, Some(TextFault::Syntax(2)));
}
