// Measures of octants, and corners on the grid: worked values.
ghost use Rattle.piece_measure.specs.Grid.{IsOnGrid};

use crate::compare::same;
use piece_measure::{grid_corner, grid_node, measure, tri};
use vec_exact::Vec3;

// The measure of a piece of three corners.
fn of_three(a: [i32; 3], b: [i32; 3], c: [i32; 3]) -> i64
    requires a_size { IsOnGrid a }
    requires b_size { IsOnGrid b }
    requires c_size { IsOnGrid c }
{
    measure(&[a, b, c])
}

#[test]
fn octants(rt: HostRuntime) {
    let r = 1 << 28;
    let (x, y, z) = ([r, 0, 0], [0, r, 0], [0, 0, r]);
    let (u, v, w) = ([-r, 0, 0], [0, -r, 0], [0, 0, -r]);
    same(&rt, &tri(x, y, z), &107_944_315_648);
    let octants = [
        of_three(x, y, z),
        of_three(y, u, z),
        of_three(u, v, z),
        of_three(v, x, z),
        of_three(y, x, w),
        of_three(u, y, w),
        of_three(v, u, w),
        of_three(x, v, w),
    ];
    let mut sum: i64 = 0;
    for octant in octants {
        same(&rt, &octant, &107_944_315_648);
        sum = sum.wrapping_add(octant);
    }
    same(&rt, &sum, &863_554_525_184);
}

#[test]
fn corners_on_the_grid(rt: HostRuntime) {
    let r = 1 << 28;
    // 2^28 / 3 is 89,478,485 and a third.
    let thirds = [r, -89_478_485, 178_956_971];
    same(&rt, &grid_node([3, -1, 2]), &thirds);
    let (x, y, z) = (3 << 70, -(1 << 70), 2 << 70);
    same(&rt, &grid_corner(Vec3 { x, y, z }), &thirds);
    // A half and one and a half go away from zero.
    let (x, y, z) = (1 << 29, 1, -3);
    same(&rt, &grid_corner(Vec3 { x, y, z }), &[r, 1, -2]);
}
