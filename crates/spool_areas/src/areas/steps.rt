//! Changing over to the other area in steps: `begin`, `add_row` for each row, `write_rows`, `open_other`.
ghost use Rattle.std.specs.Prelude.{◌≡◌, ◌≢◌, ◌<◌, ◌≤◌, ◌+◌, ◌^◌, ◌++◌, ◌∷◌, ◌↔◌, ◌⊎◌, [], List, ℕ, length, map, take, drop, Ok, Err, IfOk, None, OnOk, OnErr, IsErrOf, IsTrue, vec_len, vec_capacity};
ghost use Rattle.spool_disk.specs.Disk.{Blames, IsSynced, LeavesOnly, ChangesOnly};
ghost use Rattle.gate_journal.specs.Appends.{kept_room};
ghost use Rattle.gate_journal.specs.Entries.{records};
ghost use Rattle.spool_areas.specs.Header.{header_len, least_area, newest_version};
ghost use Rattle.spool_areas.specs.Payloads.{HasVersionAndPayloads};
ghost use Rattle.spool_areas.specs.Current.{KeepsPayloads};
ghost use Rattle.spool_areas.specs.Checkpoint.{last_epoch, plan_of, area_len, other_base, ChangesOver};
ghost use Rattle.spool_areas.specs.AreaFilling.{Change, Fills, change_at, block_len, sum_of};

use super::Areas;
use crate::fault::AreaFault;
use crate::filling::{begin_area, fill_head, open_area, write_block};
use crate::header::{HEADER_LEN, NEWEST_VERSION};
use crate::room::have_room_by_sum;
use gate_journal::Journal;
use spool_disk::Disk;

/// The length of a block of records from which it is written.
const BLOCK_LEN: usize = 65_536;

impl<D: Disk> Areas<D> {
    /// Returns the first gate of the other area. If rows whose records, 5 bytes and the payload each, have this sum of
    /// lengths cannot be written there, returns the error. The greatest sum represents any sum above it too. It calls
    /// no device.
    pub fn plan_by_sum(&self, sum: u64) -> Result<u64, AreaFault>
        ensures exact { (payloads : List (List ℕ)) → sum ≡ sum_of payloads → result ≡ plan_of self.now (map length payloads) }
        ensures first { IfOk result (λ first. first ≡ other_base self.now + header_len) }

        // If they can, `begin` returns that gate too, and the last gate and the 7 bytes reserved from it on are in the
        // area.
        ensures begins { IfOk result (λ first. plan_of self.now [] ≡ Ok first) }
        ensures fits { IfOk result (λ first. (payloads : List (List ℕ)) → sum ≡ sum_of payloads → first + length (records payloads) + kept_room ≤ other_base self.now + area_len self.now) }
    {
        let first = self.other_gate()?;
        if have_room_by_sum(first - HEADER_LEN + self.len, first, sum) {
            Ok(first)
        } else {
            Err(AreaFault::Full)
        }
    }

    // Returns the place where the other area begins.
    fn other_base(&self) -> u64
        ensures { result ≡ other_base self.now }
    {
        if self.base == 0 { self.len } else { 0 }
    }

    /// Begins a change over to the other area, as the first of its steps. It closes that area's header, writes the rest
    /// of the header, and a closed gate where the records begin. It returns that gate's place. Until `open_other` a
    /// crash leaves the payloads of the current area, whatever the steps return.
    pub fn begin(&mut self) -> Result<u64, AreaFault>
        ensures refused { (fault : AreaFault) → fault ≢ AreaFault.Disk → (IsErrOf result fault ↔ (plan_of self.old [] ≡ Err fault)) }
        ensures untouched { (fault : AreaFault) → fault ≢ AreaFault.Disk → IsErrOf result fault → self.new ≡ self.old }
        ensures blames { Blames (D.device.failures self.old.disk) (D.device.failures self.new.disk) (IsErrOf result AreaFault.Disk) }
        ensures dies { IsTrue self.new.dead ↔ (IsTrue self.old.dead ⊎ IsErrOf result AreaFault.Disk) }
        ensures same { (self.new.base ≡ self.old.base) × (self.new.end ≡ self.old.end) × (self.new.epoch ≡ self.old.epoch) × (self.new.gate ≡ self.old.gate) × (self.new.version ≡ self.old.version) }
        ensures held { self.new.held ≡ self.old.held }
        ensures gate { IfOk result (λ gate. gate ≡ other_base self.old + header_len) }
        ensures more { OnOk result (self.old.epoch < last_epoch) }
        ensures least { OnOk result (least_area ≤ area_len self.old) }
        ensures changes { ChangesOnly D.device self.old.disk self.new.disk (other_base self.old) (area_len self.old) }
        ensures begun { OnOk result ((payloads : List (List ℕ)) → KeepsPayloads D.device self.old payloads →
            Fills D.device (change_at self.old payloads) self.new.disk (other_base self.old + header_len) [] []) }
        ensures any_moment { (payloads : List (List ℕ)) → KeepsPayloads D.device self.old payloads →
            LeavesOnly D.device self.old.disk self.new.disk (HasVersionAndPayloads self.old.base self.old.version payloads) }
    {
        let first = self.other_gate()?;
        self.window.clear();
        match begin_area(&mut self.disk, first - HEADER_LEN, self.epoch + 1) {
            Ok(gate) => Ok(gate),
            Err(_) => {
                self.dead = true;
                Err(AreaFault::Disk)
            }
        }
    }

    /// Adds a row, whose record begins at `start` in the block: five free bytes followed by its payload. The bytes of
    /// the block before it are the records of rows that are not written yet; they belong at `gate`. A block that is
    /// long enough is written, without a sync, and is empty then. Returns the place where the records that are then in
    /// the block belong.
    pub fn add_row(
        &mut self,
        gate: u64,
        block: &mut Vec<u8>,
        start: usize,
    ) -> Result<u64, AreaFault>
        requires whole { start + 5 ≤ length block.old.items }
        requires short { length block.old.items < 2 ^ 32 }
        requires spare { vec_len block.old + 1 ≤ vec_capacity block.old }
        requires behind { other_base self.old + header_len ≤ gate }
        requires room { gate + length block.old.items + 1 ≤ other_base self.old + area_len self.old }

        ensures dead { IsErrOf result AreaFault.Dead ↔ IsTrue self.old.dead }
        ensures refused { (fault : AreaFault) → fault ≢ AreaFault.Disk → IsErrOf result fault → fault ≡ AreaFault.Dead }
        ensures untouched { IsErrOf result AreaFault.Dead → self.new ≡ self.old }
        ensures blames { Blames (D.device.failures self.old.disk) (D.device.failures self.new.disk) (IsErrOf result AreaFault.Disk) }
        ensures dies { IsTrue self.new.dead ↔ (IsTrue self.old.dead ⊎ IsErrOf result AreaFault.Disk) }
        ensures same { (self.new.base ≡ self.old.base) × (self.new.end ≡ self.old.end) × (self.new.epoch ≡ self.old.epoch) × (self.new.gate ≡ self.old.gate) × (self.new.version ≡ self.old.version) }
        ensures held { self.new.held ≡ self.old.held }
        ensures place { IfOk result (λ next. next + length block.new.items ≡ gate + length block.old.items) }
        ensures behind { IfOk result (λ next. gate ≤ next) }
        ensures few { OnOk result (length block.new.items < block_len) }
        ensures spare { vec_capacity block.old ≤ vec_capacity block.new }
        ensures changes { ChangesOnly D.device self.old.disk self.new.disk (other_base self.old) (area_len self.old) }
        ensures added { IfOk result (λ next. (x : Change D) (rows : List (List ℕ)) → x.other ≡ other_base self.old → x.len ≡ area_len self.old → Fills D.device x self.old.disk gate (take start block.old.items) rows →
            Fills D.device x self.new.disk next block.new.items (rows ++ drop (start + 5) block.old.items ∷ [])) }
        ensures any_moment { (x : Change D) (rows : List (List ℕ)) → x.other ≡ other_base self.old → x.len ≡ area_len self.old → Fills D.device x self.old.disk gate (take start block.old.items) rows →
            LeavesOnly D.device x.start self.new.disk (HasVersionAndPayloads x.base x.version x.payloads) }
    {
        if self.dead {
            return Err(AreaFault::Dead);
        }
        fill_head(block, start);
        if block.len() < BLOCK_LEN {
            return Ok(gate);
        }
        self.write_rows(gate, block)
    }

    /// Writes the records of a block, without a sync. The block is empty afterwards. Returns the place of the closed
    /// gate after them.
    pub fn write_rows(&mut self, gate: u64, block: &mut Vec<u8>) -> Result<u64, AreaFault>
        requires spare { vec_len block.old + 1 ≤ vec_capacity block.old }
        requires behind { other_base self.old + header_len ≤ gate }
        requires room { gate + length block.old.items + 1 ≤ other_base self.old + area_len self.old }

        ensures dead { IsErrOf result AreaFault.Dead ↔ IsTrue self.old.dead }
        ensures refused { (fault : AreaFault) → fault ≢ AreaFault.Disk → IsErrOf result fault → fault ≡ AreaFault.Dead }
        ensures untouched { IsErrOf result AreaFault.Dead → self.new ≡ self.old }
        ensures blames { Blames (D.device.failures self.old.disk) (D.device.failures self.new.disk) (IsErrOf result AreaFault.Disk) }
        ensures dies { IsTrue self.new.dead ↔ (IsTrue self.old.dead ⊎ IsErrOf result AreaFault.Disk) }
        ensures same { (self.new.base ≡ self.old.base) × (self.new.end ≡ self.old.end) × (self.new.epoch ≡ self.old.epoch) × (self.new.gate ≡ self.old.gate) × (self.new.version ≡ self.old.version) }
        ensures held { self.new.held ≡ self.old.held }
        ensures place { IfOk result (λ next. next ≡ gate + length block.old.items) }
        ensures emptied { OnOk result (block.new.items ≡ []) }
        ensures spare { vec_capacity block.old ≤ vec_capacity block.new }
        ensures changes { ChangesOnly D.device self.old.disk self.new.disk (other_base self.old) (area_len self.old) }
        ensures added { IfOk result (λ next. (x : Change D) (rows : List (List ℕ)) → x.other ≡ other_base self.old → x.len ≡ area_len self.old → Fills D.device x self.old.disk gate block.old.items rows →
            Fills D.device x self.new.disk next [] rows) }
        ensures any_moment { (x : Change D) (rows : List (List ℕ)) → x.other ≡ other_base self.old → x.len ≡ area_len self.old → Fills D.device x self.old.disk gate block.old.items rows →
            LeavesOnly D.device x.start self.new.disk (HasVersionAndPayloads x.base x.version x.payloads) }
    {
        if self.dead {
            return Err(AreaFault::Dead);
        }
        self.window.clear();
        match write_block(&mut self.disk, gate, block) {
            Ok(next) => Ok(next),
            Err(_) => {
                self.dead = true;
                Err(AreaFault::Disk)
            }
        }
    }

    /// Opens the other area after all its rows were written: it syncs, opens the header's gate and syncs. The other
    /// area is then the current one, with the next epoch and version 2.
    pub fn open_other(&mut self, gate: u64) -> Result<(), AreaFault>
        requires behind { other_base self.old + header_len ≤ gate }
        requires room { gate < other_base self.old + area_len self.old }
        requires more { self.old.epoch < last_epoch }

        ensures dead { IsErrOf result AreaFault.Dead ↔ IsTrue self.old.dead }
        ensures refused { (fault : AreaFault) → fault ≢ AreaFault.Disk → IsErrOf result fault → fault ≡ AreaFault.Dead }
        ensures untouched { IsErrOf result AreaFault.Dead → self.new ≡ self.old }
        ensures blames { Blames (D.device.failures self.old.disk) (D.device.failures self.new.disk) (IsErrOf result AreaFault.Disk) }
        ensures dies { IsTrue self.new.dead ↔ (IsTrue self.old.dead ⊎ IsErrOf result AreaFault.Disk) }
        ensures held { OnErr result ((self.new.base ≡ self.old.base) × (self.new.end ≡ self.old.end) × (self.new.epoch ≡ self.old.epoch) × (self.new.gate ≡ self.old.gate) × (self.new.version ≡ self.old.version)) }
        ensures changed { OnOk result ((self.new.base ≡ other_base self.old) × (self.new.end ≡ other_base self.old + area_len self.old) × (self.new.epoch ≡ self.old.epoch + 1) × (self.new.version ≡ newest_version) × (self.new.gate ≡ gate)) }
        ensures settled { OnOk result (self.new.held ≡ None) }
        ensures changes { ChangesOnly D.device self.old.disk self.new.disk (other_base self.old) (area_len self.old) }
        ensures added { OnOk result ((x : Change D) (rows : List (List ℕ)) → x.other ≡ other_base self.old → x.len ≡ area_len self.old → x.new_epoch ≡ self.old.epoch + 1 → Fills D.device x self.old.disk gate [] rows →
            KeepsPayloads D.device self.new rows) }
        ensures durable { OnOk result (IsSynced D.device self.new.disk) }
        ensures any_moment { (x : Change D) (rows : List (List ℕ)) → x.other ≡ other_base self.old → x.len ≡ area_len self.old → Fills D.device x self.old.disk gate [] rows →
            ChangesOver D.device x.start self.new.disk x.base x.version x.payloads x.other rows }
    {
        if self.dead {
            return Err(AreaFault::Dead);
        }
        let other = self.other_base();
        self.window.clear();
        match open_area(&mut self.disk, other) {
            Ok(()) => {
                self.base = other;
                self.epoch += 1;
                self.version = NEWEST_VERSION;
                self.journal = Journal::resume(other + HEADER_LEN, self.len - HEADER_LEN, gate);
                Ok(())
            }
            Err(_) => {
                self.dead = true;
                Err(AreaFault::Disk)
            }
        }
    }
}
