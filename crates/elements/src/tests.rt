// Metres and legs on examples: the rules for zero and undefined, and both ends of each range.
use super::kind::Kind;
use super::legs::Legs;
use super::metres::Metres;
use crate::quantity::Quantity;

#[test]
fn metres_are_worked_out(rt: HostRuntime) {
    let undefined = Metres::undefined();
    let side = Metres::of(46_340);
    assert_eq!(rt; Metres::of(7).quotient(Metres::of(-2)), Metres::of(-3));
    assert_eq!(rt; Metres::of(0).quotient(Metres::of(0)), Metres::of(0));
    assert_eq!(rt; Metres::of(5).quotient(Metres::of(0)), undefined);
    assert_eq!(rt; Metres::of(0).product(undefined), Metres::of(0));
    assert_eq!(rt; undefined.sum(Metres::of(0)), undefined);
    assert_eq!(rt; side.product(side), Metres::of(2_147_395_600));
    assert_eq!(rt; Metres::of(46_341).product(Metres::of(46_341)), undefined);
    assert_eq!(rt; Metres::of(2_147_483_647).sum(Metres::of(1)), undefined);
    assert_eq!(rt;
        Metres::of(-2_147_483_647).difference(Metres::of(1)),
        undefined
    );
}

#[test]
fn legs_are_worked_out(rt: HostRuntime) {
    let no_way = Legs::zero();
    let undefined = Legs::undefined();
    assert_eq!(rt; Legs::of(5).sum(Legs::of(7)), Legs::of(5));
    assert_eq!(rt; Legs::of(5).difference(Legs::of(7)), Legs::of(5));
    assert_eq!(rt; Legs::of(7).difference(Legs::of(5)), no_way);
    assert_eq!(rt; Legs::of(2_147_483_647).product(Legs::of(1)), undefined);
    assert_eq!(rt; Legs::of(5).quotient(Legs::of(7)), undefined);
    assert_eq!(rt; Legs::of(5).quotient(no_way), undefined);
    assert_eq!(rt; no_way.quotient(undefined), no_way);
}

#[test]
fn metres_have_codes(rt: HostRuntime) {
    assert_eq!(rt; Metres::of(-2_147_483_647).code(), 1);
    assert_eq!(rt; Metres::of(2_147_483_647).code(), 4_294_967_295);
    assert_eq!(rt; Metres::undefined().code(), 0);
    assert_eq!(rt;
        Metres::decode(4_294_967_295),
        Some(Metres::of(2_147_483_647))
    );
    assert_eq!(rt; Metres::decode(4_294_967_296), None);
}

#[test]
fn legs_have_codes(rt: HostRuntime) {
    assert_eq!(rt; Legs::of(0).code(), 2);
    assert_eq!(rt; Legs::of(2_147_483_647).code(), 2_147_483_649);
    assert_eq!(rt; Legs::zero().code(), 1);
    assert_eq!(rt; Legs::undefined().code(), 0);
    assert_eq!(rt; Legs::decode(2_147_483_650), None);
}
