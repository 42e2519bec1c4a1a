// A nearly regular icosahedron with whole coordinates.
ghost use Rattle.std.specs.Prelude.{◌≡◌, ◌≤◌, ◌<◌, All, [], slice_index_or, unsigned_abs};
ghost use Rattle.gen_ico.specs.Icosahedron.{base_triangles, IsBaseNumber};
ghost use Rattle.gen_ico.specs.Icosahedral.{corner_component};

// The two sizes of a coordinate that is not zero.
const SHORT: i32 = 81_007;

const LONG: i32 = 131_072;

const NODES: [[i32; 3]; 12] = [
    [-LONG, 0, -SHORT],
    [-LONG, 0, SHORT],
    [-SHORT, -LONG, 0],
    [-SHORT, LONG, 0],
    [0, -SHORT, -LONG],
    [0, -SHORT, LONG],
    [0, SHORT, -LONG],
    [0, SHORT, LONG],
    [SHORT, -LONG, 0],
    [SHORT, LONG, 0],
    [LONG, 0, -SHORT],
    [LONG, 0, SHORT],
];

// The base triangles, by the numbers of their nodes, which count from 1.
const TRIANGLES: [[usize; 3]; 20] = [
    [1, 3, 2],
    [1, 2, 4],
    [1, 5, 3],
    [1, 4, 7],
    [1, 7, 5],
    [2, 3, 6],
    [2, 8, 4],
    [2, 6, 8],
    [3, 5, 9],
    [3, 9, 6],
    [4, 10, 7],
    [4, 8, 10],
    [5, 7, 11],
    [5, 11, 9],
    [6, 12, 8],
    [6, 9, 12],
    [7, 10, 11],
    [8, 12, 10],
    [9, 11, 12],
    [10, 12, 11],
];

// The numbers of the nodes of base triangle `s`, from 0.
#[tactic(auto, using(crate::proofs::Table::table, crate::proofs::Table::base_numbers))]
pub fn base_triangle(s: usize) -> [usize; 3]
    requires { s < 20 }
    ensures value { result ≡ slice_index_or base_triangles s [] }
    ensures numbers { All IsBaseNumber result }
{
    TRIANGLES[s]
}

// Component `k` of corner `s` of a base triangle, both from 0.
#[tactic(auto, using(crate::proofs::Table::small_component))]
pub fn corner_component(triangle: [usize; 3], s: usize, k: usize) -> i32
    requires numbers { All IsBaseNumber triangle }
    requires corner { s < 3 }
    requires component { k < 3 }
    ensures value { result ≡ corner_component triangle s k }
    ensures size { unsigned_abs result ≤ 131072 }
{
    NODES[triangle[s] - 1][k]
}
