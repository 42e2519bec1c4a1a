// Mesh files and small files of the rows, byte by byte, after the vector of the smallest cubed
// sphere: another hand than the program's.
ghost use Rattle.std.specs.Prelude.{◌≤◌, pos, ◌≤ℤ◌, length};

use crate::generators::CS1;
use crate::runs::Run;
use std::alloc::{AllocError, Global};
use std::test::Fail;

const OCTANT: [[i32; 3]; 3] = [[1, 0, 0], [0, 1, 0], [0, 0, 1]];

const OPPOSITE: [[i32; 3]; 3] = [[-1, 0, 0], [0, -1, 0], [0, 0, -1]];

// One face of sixteen corners, far from the origin.
const SIXTEEN: [[i32; 3]; 16] = [
    [0, 0, 262143],
    [1, 0, 262143],
    [3, 1, 262143],
    [4, 2, 262143],
    [5, 4, 262143],
    [5, 5, 262143],
    [4, 7, 262143],
    [3, 8, 262143],
    [1, 9, 262143],
    [0, 9, 262143],
    [-2, 8, 262143],
    [-3, 7, 262143],
    [-4, 5, 262143],
    [-4, 4, 262143],
    [-3, 2, 262143],
    [-2, 1, 262143],
];

const TO_SIXTEEN: [i32; 16] = [1, 2, 3, 4, 5, 6, 7, 8, 9, 10, 11, 12, 13, 14, 15, 16];

fn push_number(file: &mut Vec<u8>, number: i32) -> Result<(), AllocError> {
    file.extend_from_slice(&number.to_be_bytes())
}

// The header of 248 bytes for so many nodes, faces, and nodes a face.
fn push_header(file: &mut Vec<u8>, nodes: i32, faces: i32, width: i32) -> Result<(), AllocError>
    requires nodes { (pos 0 ≤ℤ nodes) × (nodes ≤ℤ pos 1000) }
    requires faces { (pos 0 ≤ℤ faces) × (faces ≤ℤ pos 10000) }
    requires width { (pos 0 ≤ℤ width) × (width ≤ℤ pos 1000) }
{
    file.extend_from_slice(&CS1[..48])?;
    push_number(file, nodes)?;
    file.extend_from_slice(&CS1[52..64])?;
    push_number(file, faces)?;
    file.extend_from_slice(&CS1[68..108])?;
    push_number(file, faces)?;
    file.extend_from_slice(&CS1[112..132])?;
    push_number(file, width)?;
    file.extend_from_slice(&CS1[136..188])?;
    push_number(file, 12 * nodes)?;
    file.extend_from_slice(&CS1[192..236])?;
    push_number(file, (4 * faces).wrapping_mul(width))?;
    file.extend_from_slice(&CS1[240..244])?;
    push_number(file, 248 + 12 * nodes)
}

fn push_face(file: &mut Vec<u8>, face: &[i32]) -> Result<(), AllocError> {
    for number in face {
        push_number(file, *number)?;
    }
    Ok(())
}

/// The mesh file of these nodes and of so many faces with the same node numbers.
pub(crate) fn mesh_of_equal_faces(
    alloc: Global,
    nodes: &[[i32; 3]],
    face: &[i32],
    times: i32,
) -> Result<Vec<u8>, AllocError>
    requires nodes { length nodes.now ≤ 1000 }
    requires face { length face.now ≤ 1000 }
    requires times { (pos 0 ≤ℤ times) × (times ≤ℤ pos 10000) }
{
    let mut file = Vec::new(alloc);
    push_header(&mut file, nodes.len() as i32, times, face.len() as i32)?;
    for axis in 0..3 {
        for node in nodes {
            push_number(&mut file, node[axis])?;
        }
    }
    for _ in 0..times {
        push_face(&mut file, face)?;
    }
    Ok(file)
}

const TRIANGLE: [[i32; 3]; 3] = [[1000, 1, 1], [1000, 2, 1], [1000, 1, 2]];

/// The mesh file of 2897 equal faces. Each meets each, and the square of 2897, which is 8392609, is
/// past the limit of pieces.
pub(crate) fn equal_faces(alloc: Global) -> Result<Vec<u8>, AllocError> {
    mesh_of_equal_faces(alloc, &TRIANGLE, &[1, 2, 3], 2897)
}

/// A run over small meshes: an octant, the opposite octant, a face of sixteen corners, and the octant
/// listed twice.
pub(crate) fn with_small_meshes(alloc: Global) -> Result<Run, Fail> {
    let mut row = Run::new(alloc);
    let octant = mesh_of_equal_faces(alloc, &OCTANT, &[1, 2, 3], 1)?;
    let opposite = mesh_of_equal_faces(alloc, &OPPOSITE, &[1, 3, 2], 1)?;
    let sixteen = mesh_of_equal_faces(alloc, &SIXTEEN, &TO_SIXTEEN, 1)?;
    let twice = mesh_of_equal_faces(alloc, &OCTANT, &[1, 2, 3], 2)?;
    row.place("octant.g", &octant)?;
    row.place("twice.g", &twice)?;
    row.place("opposite.g", &opposite)?;
    row.place("sixteen.g", &sixteen)?;
    Ok(row)
}
