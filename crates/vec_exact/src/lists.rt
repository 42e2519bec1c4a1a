// Lists that contracts see as lists.
use std::marker::Model;

/// Whole numbers of 32 bits, seen as a list.
#[derive(Drop)]
pub struct Ints {
    pub items: Vec<i32>,
}

impl Model for Ints {
    ghost use Rattle.std.specs.Prelude.{List, ℤ};

    ghost Value = { List ℤ };

    ghost view = { λ s. s.items.items };
}

/// Whole numbers of 64 bits, seen as a list.
#[derive(Drop)]
pub struct Longs {
    pub items: Vec<i64>,
}

impl Model for Longs {
    ghost use Rattle.std.specs.Prelude.{List, ℤ};

    ghost Value = { List ℤ };

    ghost view = { λ s. s.items.items };
}

/// Triples of whole numbers, seen as a list.
#[derive(Drop)]
pub struct Nodes {
    pub items: Vec<[i32; 3]>,
}

impl Model for Nodes {
    ghost use Rattle.std.specs.Prelude.{List, ℤ};

    ghost Value = { List (List ℤ) };

    ghost view = { λ s. s.items.items };
}

/// Lists of node numbers, seen as a list of lists.
#[derive(Drop)]
pub struct Faces {
    pub items: Vec<Ints>,
}

impl Model for Faces {
    ghost use Rattle.std.specs.Prelude.{List, ℤ};

    ghost Value = { List (List ℤ) };

    ghost view = { λ s. s.items.items };
}
