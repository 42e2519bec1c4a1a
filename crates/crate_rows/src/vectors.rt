// Products, sides, roots, places and steps: worked values of each call.
ghost use Rattle.std.specs.Prelude.{◌≡◌, ◌<◌};

use crate::compare::{same, same_at, same_of};
use std::marker::Brand;
use std::sync::ledger::{Blank, Ledger};
use vec_exact::{
    Sign, Steps, Vec3, cross, det, dot, isqrt, next_place, place_after, round_div, side,
};

fn triple(x: i32, y: i32, z: i32) -> Vec3
    ensures { (result.x ≡ x) × (result.y ≡ y) × (result.z ≡ z) }
{
    Vec3 {
        x: i128::from(x),
        y: i128::from(y),
        z: i128::from(z),
    }
}

#[test]
fn products(rt: HostRuntime) {
    let a = triple(1, 2, 3);
    let b = triple(4, 5, 6);
    same(&rt, &dot(a, b), &32);
    same(&rt, &cross(a, b), &triple(-3, 6, -3));
    same(&rt, &det(a, b, triple(0, 0, 1)), &-3);
}

#[test]
fn sides(rt: HostRuntime) {
    let plane = triple(4, 0, 4);
    same(&rt, &side(plane, triple(1, 7, 0)), &Sign::Pos);
    same(&rt, &side(plane, triple(-1, 7, 1)), &Sign::On);
    same(&rt, &side(plane, triple(-2, 7, 1)), &Sign::Neg);
}

#[test]
fn rounded_quotients(rt: HostRuntime) {
    for (x, d, want) in [
        (7, 3, 2),
        (8, 3, 3),
        (5, 2, 3),
        (-5, 2, -3),
        (-7, 3, -2),
        (0, 9, 0),
    ] {
        same_of(&rt, &round_div(x, d), &want, &(x, d));
    }
}

#[test]
fn square_roots(rt: HostRuntime) {
    for (x, want) in [
        (0, 0),
        (3, 1),
        (4, 2),
        (15, 3),
        (16, 4),
        (1 << 122, 1 << 61),
    ] {
        same_at(&rt, &isqrt(x), &want, &x);
    }
}

#[test]
fn places(rt: HostRuntime) {
    same(&rt, &next_place(4, 2), &3);
    same(&rt, &next_place(4, 3), &0);
    same(&rt, &place_after(4, 3, 0), &3);
    same(&rt, &place_after(4, 3, 2), &1);
}

fn take_two<L: Ledger>(blank: Blank)
    requires name { blank.name ≡ L.name }
    requires parts { blank.parts ≡ L.parts }
    requires some { 0 < blank.parts }
{
    let mut steps = Steps::<L>::new(blank);
    steps.tick();
    steps.tick();
}

#[test]
fn steps() {
    take_two::<Brand>(Blank::new(1));
}
