// Dimensions, attributes and variables, one behind another. Lists grow as items are read, so that a
// count takes no memory by itself.
ghost use Rattle.std.specs.Prelude.{◌≡◌, ◌<◌, ◌^◌, ℕ, [], length, IfOk};
ghost use Rattle.vec_exact.specs.Answers.{Answers};
ghost use Rattle.nc_format.specs.declared.fault.NcFault.TheVariants.{NoMemory};
ghost use Rattle.nc_format.specs.Parts.{items};
ghost use Rattle.nc_format.specs.Grammar.{dim, next_dim, dim_list, att, att_list, dim_id, next_id, dim_ids, var, var_list, body};

use crate::cursor::Cursor;
use crate::{Bytes, NcAtt, NcAtts, NcDim, NcDims, NcFault, NcFile, NcVar, NcVars};
use nc_write::DimIds;
use nc_write::kinds::size_of;
use nc_write::tags::{ATTRIBUTES, DIMENSIONS, VARIABLES};
use std::alloc::Global;

impl<'a> Cursor<'a> {
    #[tactic(auto, unfolding(crate::specs::Grammar::dim))]
    fn dim(&mut self, alloc: Global, seen: bool) -> Result<NcDim, NcFault>
        ensures read { Answers NoMemory (λ x. (x, self.new.at)) result
            ((dim self.old.version seen).read self.old.bytes.now self.old.at) }
        ensures bytes { self.new.bytes ≡ self.old.bytes }
        ensures version { self.new.version ≡ self.old.version }
    {
        let name = self.name(alloc)?;
        let at = self.at as u64;
        let len = self.bounded()?;
        if seen && len == 0 {
            return Err(NcFault::BadField(at));
        }
        Ok(NcDim { name, len })
    }

    #[tactic(auto, unfolding(crate::specs::Grammar::att))]
    fn att(&mut self, alloc: Global) -> Result<NcAtt, NcFault>
        ensures read { Answers NoMemory (λ x. (x, self.new.at)) result
            ((att self.old.version).read self.old.bytes.now self.old.at) }
        ensures bytes { self.new.bytes ≡ self.old.bytes }
        ensures version { self.new.version ≡ self.old.version }
    {
        let name = self.name(alloc)?;
        let kind = self.kind()?;
        let count = self.bounded()?;
        let values = self.padded(u64::from(count) * size_of(kind))?;
        let bytes = Bytes {
            items: Vec::from_slice(alloc, values)?,
        };
        Ok(NcAtt {
            name,
            kind,
            count,
            bytes,
        })
    }

    fn some_dims(&mut self, alloc: Global, count: u32) -> Result<NcDims, NcFault>
        ensures few { IfOk result (λ x. length x < 2 ^ 32) }
        ensures read { Answers NoMemory (λ x. (x, self.new.at)) result
            ((items (next_dim self.old.version) count []).read self.old.bytes.now self.old.at) }
        ensures bytes { self.new.bytes ≡ self.old.bytes }
        ensures version { self.new.version ≡ self.old.version }
    {
        let mut items = Vec::new(alloc);
        let mut seen = false;
        for _ in 0..count {
            let dim = self.dim(alloc, seen)?;
            seen = seen || dim.len == 0;
            items.push(dim)?;
        }
        Ok(NcDims { items })
    }

    fn some_atts(&mut self, alloc: Global, count: u32) -> Result<NcAtts, NcFault>
        ensures read { Answers NoMemory (λ x. (x, self.new.at)) result
            ((items (λ _. att self.old.version) count []).read self.old.bytes.now self.old.at) }
        ensures bytes { self.new.bytes ≡ self.old.bytes }
        ensures version { self.new.version ≡ self.old.version }
    {
        let mut items = Vec::new(alloc);
        for _ in 0..count {
            let att = self.att(alloc)?;
            items.push(att)?;
        }
        Ok(NcAtts { items })
    }

    #[tactic(auto, unfolding(crate::specs::Grammar::dim_list, crate::specs::Grammar::listed))]
    pub fn dims(&mut self, alloc: Global) -> Result<NcDims, NcFault>
        ensures few { IfOk result (λ x. length x < 2 ^ 32) }
        ensures read { Answers NoMemory (λ x. (x, self.new.at)) result
            ((dim_list self.old.version).read self.old.bytes.now self.old.at) }
        ensures bytes { self.new.bytes ≡ self.old.bytes }
        ensures version { self.new.version ≡ self.old.version }
    {
        let tag = self.tag(DIMENSIONS)?;
        let count = self.count(DIMENSIONS, tag)?;
        self.some_dims(alloc, count)
    }

    #[tactic(auto, unfolding(crate::specs::Grammar::att_list, crate::specs::Grammar::listed))]
    pub fn atts(&mut self, alloc: Global) -> Result<NcAtts, NcFault>
        ensures read { Answers NoMemory (λ x. (x, self.new.at)) result
            ((att_list self.old.version).read self.old.bytes.now self.old.at) }
        ensures bytes { self.new.bytes ≡ self.old.bytes }
        ensures version { self.new.version ≡ self.old.version }
    {
        let tag = self.tag(ATTRIBUTES)?;
        let count = self.count(ATTRIBUTES, tag)?;
        self.some_atts(alloc, count)
    }

    #[tactic(auto, using(nc_write::proofs::Lens::len_here), unfolding(crate::specs::Grammar::dim_id))]
    pub fn id(&mut self, dims: &[NcDim], is_first: bool) -> Result<u32, NcFault>
        requires { length dims.now < 2 ^ 32 }
        ensures read { Answers NoMemory (λ x. (x, self.new.at)) result
            ((dim_id self.old.version dims.now is_first).read self.old.bytes.now self.old.at) }
        ensures bytes { self.new.bytes ≡ self.old.bytes }
        ensures version { self.new.version ≡ self.old.version }
    {
        let at = self.at as u64;
        let number = self.wide()?;
        if number >= dims.len() as u64 {
            return Err(NcFault::BadField(at));
        }
        if is_first || dims[number as usize].len != 0 {
            Ok(number as u32)
        } else {
            Err(NcFault::BadField(at))
        }
    }

    pub fn some_ids(&mut self, alloc: Global, dims: &[NcDim], count: u32) -> Result<DimIds, NcFault>
        requires { length dims.now < 2 ^ 32 }
        ensures read { Answers NoMemory (λ x. (x, self.new.at)) result
            ((items (next_id self.old.version dims.now) count []).read
            self.old.bytes.now self.old.at) }
        ensures bytes { self.new.bytes ≡ self.old.bytes }
        ensures version { self.new.version ≡ self.old.version }
    {
        let mut items = Vec::new(alloc);
        for place in 0..count {
            let id = self.id(dims, place == 0)?;
            items.push(id)?;
        }
        Ok(DimIds { items })
    }

    #[tactic(auto, unfolding(crate::specs::Grammar::dim_ids))]
    pub fn ids(&mut self, alloc: Global, dims: &[NcDim]) -> Result<DimIds, NcFault>
        requires { length dims.now < 2 ^ 32 }
        ensures read { Answers NoMemory (λ x. (x, self.new.at)) result
            ((dim_ids self.old.version dims.now).read self.old.bytes.now self.old.at) }
        ensures bytes { self.new.bytes ≡ self.old.bytes }
        ensures version { self.new.version ≡ self.old.version }
    {
        let count = self.bounded()?;
        self.some_ids(alloc, dims, count)
    }

    #[tactic(auto, unfolding(crate::specs::Grammar::var))]
    pub fn var(&mut self, alloc: Global, dims: &[NcDim]) -> Result<NcVar, NcFault>
        requires { length dims.now < 2 ^ 32 }
        ensures read { Answers NoMemory (λ x. (x, self.new.at)) result
            ((var self.old.version dims.now).read self.old.bytes.now self.old.at) }
        ensures bytes { self.new.bytes ≡ self.old.bytes }
        ensures version { self.new.version ≡ self.old.version }
    {
        let name = self.name(alloc)?;
        let ids = self.ids(alloc, dims)?;
        let atts = self.atts(alloc)?;
        let kind = self.kind()?;
        self.wide()?;
        let begin = self.begin()?;
        Ok(NcVar {
            name,
            dims: ids,
            atts,
            kind,
            begin,
            parts: 0,
            part: 0,
            step: 0,
        })
    }

    pub fn some_vars(
        &mut self,
        alloc: Global,
        dims: &[NcDim],
        count: u32,
    ) -> Result<NcVars, NcFault>
        requires { length dims.now < 2 ^ 32 }
        ensures few { IfOk result (λ x. length x < 2 ^ 32) }
        ensures read { Answers NoMemory (λ x. (x, self.new.at)) result
            ((items (λ _. var self.old.version dims.now) count []).read
            self.old.bytes.now self.old.at) }
        ensures bytes { self.new.bytes ≡ self.old.bytes }
        ensures version { self.new.version ≡ self.old.version }
    {
        let mut items = Vec::new(alloc);
        for _ in 0..count {
            let var = self.var(alloc, dims)?;
            items.push(var)?;
        }
        Ok(NcVars { items })
    }

    #[tactic(auto, unfolding(crate::specs::Grammar::var_list, crate::specs::Grammar::listed))]
    pub fn vars(&mut self, alloc: Global, dims: &[NcDim]) -> Result<NcVars, NcFault>
        requires { length dims.now < 2 ^ 32 }
        ensures few { IfOk result (λ x. length x < 2 ^ 32) }
        ensures read { Answers NoMemory (λ x. (x, self.new.at)) result
            ((var_list self.old.version dims.now).read self.old.bytes.now self.old.at) }
        ensures bytes { self.new.bytes ≡ self.old.bytes }
        ensures version { self.new.version ≡ self.old.version }
    {
        let tag = self.tag(VARIABLES)?;
        let count = self.count(VARIABLES, tag)?;
        self.some_vars(alloc, dims, count)
    }

    #[tactic(auto, unfolding(crate::specs::Grammar::body))]
    pub fn body(&mut self, alloc: Global) -> Result<NcFile, NcFault>
        ensures few { IfOk result (λ x. length x.vars < 2 ^ 32) }
        ensures read { Answers NoMemory (λ x. (x, self.new.at)) result
            ((body self.old.version).read self.old.bytes.now self.old.at) }
    {
        let records = self.records()?;
        let dims = self.dims(alloc)?;
        let atts = self.atts(alloc)?;
        let vars = self.vars(alloc, &dims.items)?;
        Ok(NcFile {
            version: self.version,
            records,
            dims,
            atts,
            vars,
        })
    }
}
