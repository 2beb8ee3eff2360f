// Claims.

ghost use Rattle.std.specs.Prelude.{◌≡◌, ◌<◌, ◌≤◌, length};

use crate::copies::copied_slots;
use crate::parts::{Place, Shell, Slot};
use lists::{ByteString, List};
use paths::Path;
use paths::laws::listed_paths_are_sound;
use script::limits::{LOCKTIME_THRESHOLD, MAX_SCRIPT_SIZE};
use std::alloc::AllocError;
use std::marker::Model;
use tx::OutPoint;

/// A claim on an output: a path through its script, with a filling of each of the path's slots, and the transaction round it. Of the script it keeps the bytes, and of the script's paths its own. Only
/// `accept` makes one. A contract sees it as these parts, with every path of the script.
#[derive(Drop)]
pub struct Claim {
    script: ByteString,
    index: usize,
    path: Path,
    slots: List<Slot>,
    place: Place,
    shell: Shell,
}

impl Model for Claim {
    ghost use Rattle.std.specs.Prelude.{is_ok, IsTrue};
    ghost use Rattle.claim.specs.Judgement.{judgement_of};
    ghost use Rattle.claim.specs.Ways.{ways_of, IsWayOf};
    ghost use Rattle.claim.specs.Claims.{ClaimParts, IsBare};

    ghost Value = { ClaimParts };

    ghost view = { λ c. record {
      ways = ways_of c.script;
      index = c.index;
      slots = c.slots;
      place = c.place;
      shell = c.shell;
    } };

    ghost invariant = { λ c. IsWayOf c.script c.index c.path
        × IsTrue (is_ok (judgement_of (ways_of c.script) c.index c.slots c.place c.shell))
        × IsBare c.shell };
}

impl Claim {
    ghost use Rattle.std.specs.Prelude.{is_ok, IsTrue, IfOk, Some, true};
    ghost use Rattle.script.specs.Spelling.{Spells};
    ghost use Rattle.claim.specs.Judgement.{judgement_of, is_shell};
    ghost use Rattle.claim.specs.Ways.{ways_of, IsWayOf};
    ghost use Rattle.claim.specs.Claims.{IsBare, IsSpending, IsWhole, TakesPath, path_of, sequence_of, lock_time_of};
    ghost use Rattle.paths.specs.Sound.{IsSound};

    // A claim that was judged on a path of its script. A fixed transaction in its shell has no witness items.
    pub(crate) fn new(
        script: ByteString,
        index: usize,
        path: Path,
        slots: List<Slot>,
        place: Place,
        shell: Shell,
    ) -> Claim
        requires way { IsWayOf script index path }
        requires judged { IsTrue (is_ok (judgement_of (ways_of script) index slots place shell)) }
        requires bare { IsBare shell }
        ensures { result ≡ record {
          ways = ways_of script;
          index = index;
          slots = slots;
          place = place;
          shell = shell;
        } }
    {
        Claim {
            script,
            index,
            path,
            slots,
            place,
            shell,
        }
    }

    /// A copy, accepted as this claim is.
    pub fn copy(&self) -> Result<Self, AllocError>
        ensures { IfOk result (λ c. c ≡ self.now) }
    {
        let script = self.script.copy()?;
        let path = self.path.copy()?;
        let slots = copied_slots(&self.slots)?;
        let place = self.place.copy()?;
        let shell = self.shell.copy()?;
        let copy = Claim::new(script, self.index, path, slots, place, shell);
        Ok(copy)
    }

    /// The bytes of the claimed output's script.
    pub fn script(&self) -> &[u8]
        ensures spelt { Spells self.now.ways.ops result.now }
        ensures short { length result.now ≤ MAX_SCRIPT_SIZE }
    {
        // Borrowing both fields gives the prover the invariant.
        let _path = &self.path;
        self.script.bytes()
    }

    /// The index of the claim's path among those of its script.
    pub fn index(&self) -> usize
        ensures { result ≡ self.now.index }
    {
        self.index
    }

    /// The path that the claim takes. Whatever meets the path runs clean. Whatever fits the claim meets the path and spends the output.
    pub fn path(&self) -> &Path
        ensures value { TakesPath self.now result.now }
        ensures at { path_of self.now ≡ Some result.now }
        ensures shell { is_shell result.now self.now.place self.now.shell ≡ true }
        ensures sound { IsSound self.now.ways.ops result.now }
        ensures spends { IsSpending self.now }
        ensures whole { IsWhole self.now }
    {
        // The proof learns from the law that whatever meets a listed path runs clean.
        listed_paths_are_sound();
        // Borrowing both fields gives the prover the invariant.
        let _script = &self.script;
        &self.path
    }

    /// How the slots of the path are filled, the top of the stack first.
    pub fn slots(&self) -> &[Slot]
        ensures { result.now ≡ self.now.slots }
    {
        self.slots.values()
    }

    /// The place of the claimed output.
    pub fn place(&self) -> &Place
        ensures { result.now ≡ self.now.place }
    {
        &self.place
    }

    /// The transaction round the claim. If it is fixed, it has no witness item.
    pub fn shell(&self) -> &Shell
        ensures value { result.now ≡ self.now.shell }
        ensures bare { IsBare result.now }
    {
        &self.shell
    }

    /// The claimed output.
    pub fn outpoint(&self) -> OutPoint
        ensures { result ≡ self.now.place.outpoint }
    {
        self.place.outpoint
    }

    /// The lock time that a transaction with this claim needs, as a height (BIP 65). In an open shell it is the path's, or 0 if the path checks
    /// none. Otherwise it is that of the fixed transaction.
    pub fn needs_height(&self) -> u64
        ensures value { result ≡ lock_time_of self.now }
        ensures below { result < LOCKTIME_THRESHOLD }
    {
        let lock = self.path().lock;
        match &self.shell {
            Shell::Open => lock.unwrap_or(0),
            Shell::Fixed(tx) => u64::from(tx.lock_time()),
        }
    }

    /// The age in blocks that the claimed output needs; 0 if the path checks none (BIP 68, 112).
    pub fn needs_age(&self) -> u16
        ensures { result ≡ sequence_of self.now }
    {
        self.path().age.unwrap_or(0)
    }

    /// The sequence of the claim's input, which is its age in blocks (BIP 68).
    pub fn sequence(&self) -> u32
        ensures { result ≡ sequence_of self.now }
    {
        u32::from(self.needs_age())
    }
}
