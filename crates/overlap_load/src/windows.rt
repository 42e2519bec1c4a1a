// An overlap file that is read piece by piece, so that its pieces never stand in memory together.
ghost use Rattle.std.specs.Prelude.{◌≡◌, ◌⊎◌, ◌≤◌, ◌<◌, ◌+◌, ◌-◌, ◌*◌, List, ℕ, [], length, map, take, slice_get, IsSomeAnd, true, false, OnOk, IfOk, IfErr, IfSome, Ok, None};
ghost use Rattle.std.specs.List.{sum_by};
ghost use Rattle.clip.specs.declared.pieces.Piece.{Piece as OnePiece};
ghost use Rattle.remap_io.specs.Folder.{OnFile};
ghost use Rattle.remap_io.specs.Outside.{OnlyReads};
ghost use Rattle.nc_format.specs.declared.NcVar.{NcVar};
ghost use Rattle.remap_files.specs.OverlapNames.{overlap_vars_in};
ghost use Rattle.remap_files.specs.OverlapIn.{lists_in};
ghost use Rattle.remap_files.specs.OverlapRows.{columns_of, overlap_lens, ring_begin, row_fault};
ghost use Rattle.remap_files.specs.Rows.{with_corners};
ghost use Rattle.remap_load.specs.Heads.{IsHead, IsHeadOfBytes};
ghost use Rattle.remap_load.specs.Loading.{IsReadFault, ReadsAtMost};
ghost use Rattle.remap_load.specs.Kinds.{IsFileRefusal, head_cost};
ghost use Rattle.remap_load.specs.Pieces.{bytes_at};
ghost use Rattle.overlap_load.specs.OverlapFile.{overlap_kind, overlap_bytes, overlap_cost, IsOfHead};
ghost use Rattle.overlap_load.specs.Windows.{corner_place, without_corners, bytes_from, rest_bytes, IsReader, IsRead, with_next, IsNext, piece_here, next_row, AreNext, IsRowRefusal};

use crate::OverlapRefusal;
use crate::loading::named_vars;
use clip::Piece;
use exodus_mesh::FileFault;
use nc_format::NcFile;
use remap_files::{OverlapRows, OverlapVars, check_rows, piece_of_row, ring_len, rows_of};
use remap_io::Files;
use remap_load::{FileRefusal, Head, LoadFault, load_header, load_ints, load_lists, load_part};
use std::alloc::{AllocError, Global};
use std::marker::Model;
use vec_exact::Ints;

// The corners of so many rows are read at once.
const WINDOW: usize = 4096;

/// An overlap file whose pieces are read one after another. Its rows stand in memory, and the
/// corners of some of them.
#[derive(Drop)]
pub struct OverlapReader {
    head: Head,
    vars: OverlapVars,
    values: Vec<Ints>,
    at: usize,
    begin: usize,
    corners: Ints,
    first: usize,
    end: usize,
}

impl Model for OverlapReader {
    ghost use Rattle.overlap_load.specs.Windows.{Reading};

    ghost Value = { Reading };

    ghost view = { λ r. record {
      head = r.head;
      vars = r.vars;
      values = r.values.items;
      at = r.at;
      begin = r.begin;
      corners = r.corners;
      first = r.first;
      end = r.end;
    } };
}

// How many numbers the rings of the rows from one to another have together.
fn rings_between(rows: &OverlapRows, from: usize, to: usize) -> usize
    requires order { from ≤ to }
    requires rows { to ≤ length rows.now.ring_size }
    requires few { ring_begin rows.now.ring_size to ≤ 268435456 }
    ensures { ring_begin rows.now.ring_size from + result ≡ ring_begin rows.now.ring_size to }
{
    let mut sum = 0;
    for row in from..to {
        sum += ring_len(rows, row);
    }
    sum
}

// The place of the variable of the corners.
fn corner_place(vars: &OverlapVars) -> u32
    requires { 4 < length vars.now.vars }
    ensures { result ≡ corner_place vars.now }
{
    vars.vars.items[4]
}

// Whether a variable stands in one piece.
fn in_one_piece(file: &NcFile, place: u32) -> bool
    requires { place < length file.now.vars }
    ensures one { result ≡ true → IsSomeAnd (slice_get file.now.vars place) (λ v. v.parts ≡ 1) }
    ensures many { result ≡ false
        → IsSomeAnd (slice_get file.now.vars place) (λ v. v.parts ≡ 1) → ⊥ }
{
    file.vars.items[place as usize].parts == 1
}

// The corners of the rows from `end` on, whose rings begin at `begin`, and the row behind these.
fn corners_from<F: Files>(
    alloc: Global,
    files: &mut F,
    name: &str,
    head: &Head,
    vars: &OverlapVars,
    values: &[Ints],
    begin: usize,
    end: usize,
) -> Result<(Ints, usize), LoadFault>
    requires reader { IsReader (without_corners head.now vars.now values.now begin end) }
    requires of_file { OnFile (F.seen files.old).folder name.now (IsHeadOfBytes head.now) }
    requires some { end < vars.now.pieces }
    ensures corners { IfOk result (λ p. AreNext (F.seen files.old).folder name.now
        (without_corners head.now vars.now values.now begin end) p.0 p.1) }
    ensures fault { IfErr result (IsReadFault (F.seen files.old) (F.seen files.new)) }
    ensures reads { OnlyReads (F.seen files.old) (F.seen files.new) }
    ensures asked { IfOk result (λ p. (F.seen files.new).taken
        + bytes_from (without_corners head.now vars.now values.now begin end) p.1
        ≤ (F.seen files.old).taken
        + rest_bytes (without_corners head.now vars.now values.now begin end)) }
{
    let place = corner_place(vars);
    if !in_one_piece(&head.file, place) {
        let corners = load_ints(alloc, files, name, head, place)?;
        return Ok((corners, vars.pieces as usize));
    }
    let rows = rows_of(values);
    let last = (end + WINDOW).min(vars.pieces as usize);
    let count = rings_between(&rows, end, last);
    let from = 3 * begin as u64;
    let part = 3 * count as u64;
    let corners = load_part(alloc, files, name, head, place, from, part)?;
    Ok((corners, last))
}

impl OverlapReader {
    /// How many faces the source mesh has, by the file.
    pub fn source_faces(&self) -> u32
        ensures { result ≡ self.now.vars.faces_a }
    {
        self.vars.faces_a
    }

    /// How many faces the target mesh has, by the file.
    pub fn target_faces(&self) -> u32
        ensures { result ≡ self.now.vars.faces_b }
    {
        self.vars.faces_b
    }

    /// How many pieces the overlap has.
    pub fn piece_count(&self) -> usize
        ensures { result ≡ self.now.vars.pieces }
    {
        self.vars.pieces as usize
    }

    // Reads the corners of the next rows, where those of the next row don't stand in memory.
    fn fill<F: Files>(&mut self, alloc: Global, files: &mut F, name: &str) -> Result<(), LoadFault>
        requires reader { IsReader self.old }
        requires of_file { OnFile (F.seen files.old).folder name.now (IsHeadOfBytes self.old.head) }
        requires some { self.old.at < self.old.vars.pieces }
        ensures read { (pieces : List OnePiece)
            → IsRead (F.seen files.old).folder name.now self.old pieces
            → OnOk result (IsRead (F.seen files.old).folder name.now self.new pieces) }
        ensures reader { OnOk result (IsReader self.new) }
        ensures ready { OnOk result (self.new.at < self.new.end) }
        ensures at { OnOk result (self.new.at ≡ self.old.at) }
        ensures vars { OnOk result (self.new.vars ≡ self.old.vars) }
        ensures fault { IfErr result (IsReadFault (F.seen files.old) (F.seen files.new)) }
        ensures reads { OnlyReads (F.seen files.old) (F.seen files.new) }
        ensures asked { OnOk result ((F.seen files.new).taken + rest_bytes self.new
            ≤ (F.seen files.old).taken + rest_bytes self.old) }
    {
        if self.at < self.end {
            return Ok(());
        }
        let (corners, end) = corners_from(
            alloc,
            files,
            name,
            &self.head,
            &self.vars,
            &self.values,
            self.begin,
            self.end,
        )?;
        self.corners = corners;
        self.first = self.begin;
        self.end = end;
        Ok(())
    }

    // The piece of the next row, whose corners stand in memory.
    fn take_piece(&mut self, alloc: Global) -> Result<Piece, AllocError>
        requires reader { IsReader self.old }
        requires ready { self.old.at < self.old.end }
        ensures piece { IfOk result (λ p. p ≡ piece_here self.old) }
        ensures next { OnOk result (self.new ≡ next_row self.old) }
    {
        let rows = rows_of(&self.values);
        let (_, corners) = self.corners.items.split_at(3 * (self.begin - self.first));
        let piece = piece_of_row(alloc, &rows, self.at, self.begin, corners)?;
        let len = ring_len(&rows, self.at);
        self.at += 1;
        self.begin += len;
        Ok(piece)
    }

    /// The next piece of the overlap, and None behind the last one.
    ///
    /// The corners of up to 4,096 rows are read at once, and all of them where their variable
    /// stands in several pieces. `Failed` and `NoMemory` may come in place of a piece, and `Absent`
    /// where the folder isn't told; no further piece is to be asked for then.
    pub fn next<F: Files>(
        &mut self,
        alloc: Global,
        files: &mut F,
        name: &str,
    ) -> Result<Option<Piece>, LoadFault>
        requires reader { IsReader self.old }
        requires of_file { OnFile (F.seen files.old).folder name.now (IsHeadOfBytes self.old.head) }
        // Piece by piece comes what the file holds, where the folder is told. That a piece is sound
        // holds in every folder.
        ensures read { (pieces : List OnePiece)
            → IsRead (F.seen files.old).folder name.now self.old pieces
            → IfOk result (λ next.
            IsRead (F.seen files.old).folder name.now self.new (with_next pieces next)) }
        ensures next { (pieces : List OnePiece)
            → IsRead (F.seen files.old).folder name.now self.old pieces
            → IfOk result (IsNext self.old self.new) }
        ensures fault { IfErr result (IsReadFault (F.seen files.old) (F.seen files.new)) }
        // What is asked for is taken off what the corners still cost.
        ensures reads { OnlyReads (F.seen files.old) (F.seen files.new) }
        ensures asked { OnOk result ((F.seen files.new).taken + rest_bytes self.new
            ≤ (F.seen files.old).taken + rest_bytes self.old) }
    {
        if self.at == self.vars.pieces as usize {
            return Ok(None);
        }
        self.fill(alloc, files, name)?;
        let piece = self.take_piece(alloc)?;
        Ok(Some(piece))
    }
}

// The numbers of the four variables that tell the rows without their corners, or none without a
// piece.
fn load_rows<F: Files>(
    alloc: Global,
    files: &mut F,
    name: &str,
    head: &Head,
    vars: &OverlapVars,
) -> Result<Vec<Ints>, LoadFault>
    requires head { IsHead head.now }
    requires of_file { OnFile (F.seen files.old).folder name.now (IsHeadOfBytes head.now) }
    requires found { overlap_vars_in head.now.file ≡ Ok vars.now }
    ensures values { IfOk result (λ values. OnFile (F.seen files.old).folder name.now (λ bytes.
        values.items ≡ lists_in head.now.file bytes (take 4 vars.now.vars))) }
    ensures lens { IfOk result (λ values.
        map length values.items ≡ take 4 (overlap_lens vars.now)) }
    ensures fault { IfErr result (IsReadFault (F.seen files.old) (F.seen files.new)) }
    ensures reads { ReadsAtMost (F.seen files.old) (F.seen files.new)
        (sum_by (bytes_at head.now.file) (take 4 vars.now.vars)) }
{
    let places = vars.vars.items.as_slice();
    let (four, _) = places.split_at(places.len().min(4));
    load_lists(alloc, files, name, head, four)
}

// Tests the rows, whatever their corners are.
fn test_rows(vars: &OverlapVars, values: &[Ints]) -> Result<(), OverlapRefusal>
    requires count { vars.now.pieces ≤ 8388608 }
    requires lens { map length values.now ≡ take 4 (overlap_lens vars.now) }
    ensures good { OnOk result
        (row_fault vars.now (with_corners (columns_of values.now) []) ≡ None) }
    ensures refusal { IfErr result
        (IsRowRefusal vars.now (with_corners (columns_of values.now) [])) }
{
    if vars.pieces == 0 {
        return Ok(());
    }
    match check_rows(vars, &rows_of(values)) {
        Some(row) => Err(FileRefusal::Content(FileFault::Row(row))),
        None => Ok(()),
    }
}

// The variables of a file whose head was loaded, and the numbers that tell its rows. The names are
// tested before any value is read, and the rows before any corner.
fn rows_by_head<F: Files>(
    alloc: Global,
    files: &mut F,
    name: &str,
    head: &Head,
) -> Result<(OverlapVars, Vec<Ints>), OverlapRefusal>
    requires head { IsHead head.now }
    requires of_file { OnFile (F.seen files.old).folder name.now (IsHeadOfBytes head.now) }
    ensures found { IfOk result (λ p. overlap_vars_in head.now.file ≡ Ok p.0) }
    ensures values { IfOk result (λ p. OnFile (F.seen files.old).folder name.now (λ bytes.
        p.1.items ≡ lists_in head.now.file bytes (take 4 p.0.vars))) }
    ensures lens { IfOk result (λ p. map length p.1.items ≡ take 4 (overlap_lens p.0)) }
    ensures good { IfOk result (λ p.
        row_fault p.0 (with_corners (columns_of p.1.items) []) ≡ None) }
    ensures refusal { IfErr result
        (IsFileRefusal overlap_kind (F.seen files.old) (F.seen files.new) name.now) }
    ensures reads { OnlyReads (F.seen files.old) (F.seen files.new) }
    ensures asked { IfOk result (λ p. (F.seen files.new).taken ≤ (F.seen files.old).taken
        + sum_by (bytes_at head.now.file) (take 4 p.0.vars)) }
    ensures values_last { IfErr result (λ refusal. IsOfHead refusal
        → (F.seen files.new).taken ≡ (F.seen files.old).taken) }
{
    let vars = named_vars(alloc, &head.file)?;
    let values = load_rows(alloc, files, name, head, &vars)?;
    test_rows(&vars, &values)?;
    Ok((vars, values))
}

// The reader of a file whose head was loaded.
fn open_by_head<F: Files>(
    alloc: Global,
    files: &mut F,
    name: &str,
    head: Head,
) -> Result<OverlapReader, OverlapRefusal>
    requires head { IsHead head }
    requires of_file { OnFile (F.seen files.old).folder name.now (IsHeadOfBytes head) }
    ensures read { IfOk result (λ r. IsRead (F.seen files.old).folder name.now r []) }
    ensures same { IfOk result (λ r. r.head ≡ head) }
    ensures refusal { IfErr result
        (IsFileRefusal overlap_kind (F.seen files.old) (F.seen files.new) name.now) }
    ensures reads { OnlyReads (F.seen files.old) (F.seen files.new) }
    ensures asked { IfOk result (λ r. (F.seen files.new).taken + rest_bytes r
        ≤ (F.seen files.old).taken + overlap_kind.needed head.file) }
    ensures values_last { IfErr result (λ refusal. IsOfHead refusal
        → (F.seen files.new).taken ≡ (F.seen files.old).taken) }
{
    match rows_by_head(alloc, files, name, &head) {
        Ok((vars, values)) => Ok(OverlapReader {
            head,
            vars,
            values,
            at: 0,
            begin: 0,
            corners: Ints {
                items: Vec::new(alloc),
            },
            first: 0,
            end: 0,
        }),
        Err(why) => {
            // This is cheaper to prove than what a way out lets go by itself.
            drop(head);
            Err(why)
        }
    }
}

/// The reader of the overlap that the named file holds, before its first piece.
///
/// A refusal is the one that `load_overlap` gives: all rows are tested before any corner is read.
pub fn open_overlap<F: Files>(
    alloc: Global,
    files: &mut F,
    name: &str,
) -> Result<OverlapReader, OverlapRefusal>
    // No piece was read yet.
    ensures read { IfOk result (λ r. IsRead (F.seen files.old).folder name.now r []) }
    ensures refusal { IfErr result
        (IsFileRefusal overlap_kind (F.seen files.old) (F.seen files.new) name.now) }
    // No file changes, and no count falls. No value is read before the names are found good. What
    // was asked for, and what the corners still cost, is at most what the overlap costs.
    ensures reads { OnlyReads (F.seen files.old) (F.seen files.new) }
    ensures values_last { IfErr result (λ refusal. IsOfHead refusal
        → IfSome (F.seen files.old).folder (λ m.
        (F.seen files.new).taken ≤ (F.seen files.old).taken + head_cost m name.now)) }
    ensures asked { IfOk result (λ r. IfSome (F.seen files.old).folder (λ m.
        (F.seen files.new).taken + rest_bytes r
        ≤ (F.seen files.old).taken + overlap_cost m name.now)) }
{
    let head = load_header(alloc, files, name)?;
    open_by_head(alloc, files, name, head)
}
