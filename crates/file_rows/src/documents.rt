// Files of five documents, by their bytes.
ghost use Rattle.std.specs.Prelude.{◌≡◌, [], ◌∷◌, IfOk, codes};
ghost use Rattle.nc_write.specs.declared.Values.TheVariants.{Byte, Int};
ghost use Rattle.nc_write.specs.Form.{IsWellFormed};
ghost use Rattle.file_rows.specs.Samples.{dimension_of, attribute_of, variable_of, records_of, upwards, downwards, mesh_dims, one_record_variable, two_record_variables, without_records, smallest_cubed_sphere, no_pieces};

use crate::compared::same;
use crate::spelled::{
    NO_PIECES, ONE_RECORD_VARIABLE, SMALLEST_CUBED_SPHERE, TWO_RECORD_VARIABLES, WITHOUT_RECORDS,
    bytes_of,
};
use nc_write::{
    Bytes8, DimIds, DocAtt, DocAtts, DocDim, DocDims, DocVar, DocVars, Name, NcDoc, Values, encode,
};
use std::alloc::{AllocError, Global};
use std::process::Abort;
use std::test::Fail;
use vec_exact::{Ints, Longs};

fn name(alloc: Global, text: &str) -> Result<Name, AllocError>
    ensures { IfOk result (λ n. n ≡ text.now) }
{
    Ok(Name {
        items: text.as_bytes().to_vec(alloc)?,
    })
}

fn dimension(alloc: Global, text: &str, len: u32) -> Result<DocDim, AllocError>
    ensures { IfOk result (λ d. d ≡ dimension_of text.now len) }
{
    Ok(DocDim {
        name: name(alloc, text)?,
        len,
    })
}

fn attribute(alloc: Global, text: &str, value: i32) -> Result<DocAtt, AllocError>
    ensures { IfOk result (λ a. a ≡ attribute_of text.now value) }
{
    Ok(DocAtt {
        name: name(alloc, text)?,
        value,
    })
}

fn variable(alloc: Global, text: &str, dims: &[u32], values: Values) -> Result<DocVar, AllocError>
    ensures { IfOk result (λ v. v ≡ variable_of text.now dims.now values) }
{
    Ok(DocVar {
        name: name(alloc, text)?,
        dims: DimIds {
            items: dims.to_vec(alloc)?,
        },
        values,
    })
}

fn bytes(alloc: Global, numbers: [i8; 9]) -> Result<Values, AllocError>
    ensures { IfOk result (λ values. values ≡ Byte numbers) }
{
    Ok(Values::Byte(Bytes8 {
        items: Vec::from_array(alloc, numbers)?,
    }))
}

fn ints(alloc: Global, numbers: [i32; 24]) -> Result<Values, AllocError>
    ensures { IfOk result (λ values. values ≡ Int numbers) }
{
    Ok(Values::Int(Ints {
        items: Vec::from_array(alloc, numbers)?,
    }))
}

fn with_records(alloc: Global, vars: Vec<DocVar>) -> Result<NcDoc, AllocError>
    ensures { IfOk result (λ doc. doc ≡ records_of vars.items) }
{
    let dims = [dimension(alloc, "t", 0)?, dimension(alloc, "k", 3)?];
    Ok(NcDoc {
        records: 3,
        dims: DocDims {
            items: Vec::from_array(alloc, dims)?,
        },
        atts: DocAtts {
            items: Vec::new(alloc),
        },
        vars: DocVars { items: vars },
    })
}

fn upwards(alloc: Global) -> Result<DocVar, AllocError>
    ensures { IfOk result (λ v. v ≡ variable_of (codes "b") (0 ∷ 1 ∷ []) (Byte upwards)) }
{
    variable(
        alloc,
        "b",
        &[0, 1],
        bytes(alloc, [1, 2, 3, 4, 5, 6, 7, 8, 9])?,
    )
}

fn downwards(alloc: Global) -> Result<DocVar, AllocError>
    ensures { IfOk result (λ v. v ≡ variable_of (codes "c") (0 ∷ 1 ∷ []) (Byte downwards)) }
{
    variable(
        alloc,
        "c",
        &[0, 1],
        bytes(alloc, [-1, -2, -3, -4, -5, -6, -7, -8, -9])?,
    )
}

#[tactic(auto, unfolding(crate::specs::Samples::one_record_variable))]
fn one_record_variable(alloc: Global) -> Result<NcDoc, AllocError>
    ensures { IfOk result (λ doc. doc ≡ one_record_variable) }
{
    with_records(alloc, Vec::from_array(alloc, [upwards(alloc)?])?)
}

#[tactic(auto, unfolding(crate::specs::Samples::two_record_variables))]
fn two_record_variables(alloc: Global) -> Result<NcDoc, AllocError>
    ensures { IfOk result (λ doc. doc ≡ two_record_variables) }
{
    with_records(
        alloc,
        Vec::from_array(alloc, [upwards(alloc)?, downwards(alloc)?])?,
    )
}

#[tactic(auto, unfolding(crate::specs::Samples::without_records))]
fn without_records(alloc: Global) -> Result<NcDoc, AllocError>
    ensures { IfOk result (λ doc. doc ≡ without_records) }
{
    let sums = Values::Long(Longs {
        items: Vec::from_array(alloc, [5, -6])?,
    });
    let none = Values::Int(Ints {
        items: Vec::new(alloc),
    });
    let dims = [dimension(alloc, "t", 0)?, dimension(alloc, "n", 2)?];
    let vars = [
        variable(alloc, "S", &[1], sums)?,
        variable(alloc, "r", &[0, 1], none)?,
    ];
    Ok(NcDoc {
        records: 0,
        dims: DocDims {
            items: Vec::from_array(alloc, dims)?,
        },
        atts: DocAtts {
            items: Vec::from_array(alloc, [attribute(alloc, "fill_value", -1)?])?,
        },
        vars: DocVars {
            items: Vec::from_array(alloc, vars)?,
        },
    })
}

fn mesh_dims(alloc: Global) -> Result<DocDims, AllocError>
    ensures { IfOk result (λ dims. dims ≡ mesh_dims) }
{
    let dims = [
        dimension(alloc, "num_dim", 3)?,
        dimension(alloc, "num_nodes", 8)?,
        dimension(alloc, "num_elem", 6)?,
        dimension(alloc, "num_el_blk", 1)?,
        dimension(alloc, "num_el_in_blk1", 6)?,
        dimension(alloc, "num_nod_per_el1", 4)?,
    ];
    Ok(DocDims {
        items: Vec::from_array(alloc, dims)?,
    })
}

#[tactic(auto, unfolding(crate::specs::Samples::smallest_cubed_sphere))]
fn smallest_cubed_sphere(alloc: Global) -> Result<NcDoc, AllocError>
    ensures { IfOk result (λ doc. doc ≡ smallest_cubed_sphere) }
{
    let coord = ints(
        alloc,
        [
            -1, -1, -1, -1, 1, 1, 1, 1, -1, -1, 1, 1, -1, -1, 1, 1, -1, 1, -1, 1, -1, 1, -1, 1,
        ],
    )?;
    let connect = ints(
        alloc,
        [
            5, 7, 8, 6, 7, 3, 4, 8, 3, 1, 2, 4, 1, 5, 6, 2, 6, 8, 4, 2, 1, 3, 7, 5,
        ],
    )?;
    let vars = [
        variable(alloc, "coord", &[0, 1], coord)?,
        variable(alloc, "connect1", &[4, 5], connect)?,
    ];
    Ok(NcDoc {
        records: 0,
        dims: mesh_dims(alloc)?,
        atts: DocAtts {
            items: Vec::new(alloc),
        },
        vars: DocVars {
            items: Vec::from_array(alloc, vars)?,
        },
    })
}

#[tactic(auto, unfolding(crate::specs::Samples::no_pieces))]
fn no_pieces(alloc: Global) -> Result<NcDoc, AllocError>
    ensures { IfOk result (λ doc. doc ≡ no_pieces) }
{
    let atts = [
        attribute(alloc, "faces_a", 1)?,
        attribute(alloc, "faces_b", 1)?,
        attribute(alloc, "pieces", 0)?,
    ];
    Ok(NcDoc {
        records: 0,
        dims: DocDims {
            items: Vec::new(alloc),
        },
        atts: DocAtts {
            items: Vec::from_array(alloc, atts)?,
        },
        vars: DocVars {
            items: Vec::new(alloc),
        },
    })
}

// The file of the document has these bytes.
fn has_file(rt: &impl Abort, alloc: Global, doc: &NcDoc, digits: &str) -> Result<(), Fail>
    requires { IsWellFormed doc.now }
{
    let file = encode(alloc, doc).ok().ok_or("there is memory")?;
    let want = bytes_of(alloc, digits)?;
    same(rt, &file.as_slice(), &want.as_slice());
    Ok(())
}

#[test]
#[tactic(auto, using(crate::proofs::Samples::one_form))]
fn writes_one_record_variable(rt: HostRuntime) -> Result<(), Fail> {
    let doc = one_record_variable(rt.alloc())?;
    has_file(&rt, rt.alloc(), &doc, ONE_RECORD_VARIABLE)
}

#[test]
#[tactic(auto, using(crate::proofs::Samples::two_form))]
fn writes_two_record_variables(rt: HostRuntime) -> Result<(), Fail> {
    let doc = two_record_variables(rt.alloc())?;
    has_file(&rt, rt.alloc(), &doc, TWO_RECORD_VARIABLES)
}

#[test]
#[tactic(auto, using(crate::proofs::Samples::mesh_form))]
fn writes_smallest_cubed_sphere(rt: HostRuntime) -> Result<(), Fail> {
    let doc = smallest_cubed_sphere(rt.alloc())?;
    has_file(&rt, rt.alloc(), &doc, SMALLEST_CUBED_SPHERE)
}

#[test]
#[tactic(auto, using(crate::proofs::Samples::none_form))]
fn writes_no_pieces(rt: HostRuntime) -> Result<(), Fail> {
    let doc = no_pieces(rt.alloc())?;
    has_file(&rt, rt.alloc(), &doc, NO_PIECES)
}

#[test]
#[tactic(auto, using(crate::proofs::Samples::long_form))]
fn writes_without_records(rt: HostRuntime) -> Result<(), Fail> {
    let doc = without_records(rt.alloc())?;
    has_file(&rt, rt.alloc(), &doc, WITHOUT_RECORDS)
}
