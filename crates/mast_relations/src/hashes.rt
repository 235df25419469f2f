//! Places by their hashes.
ghost use Rattle.std.specs.Prelude.{◌≡◌, ℕ, ◌+◌, ◌-◌, ◌%◌, ◌<◌, ◌≤◌, ◌^◌, ◌∷◌, ◌++◌, [], IfOk, OnOk, OnErr, length, get_or, set};
ghost use Rattle.mast_relations.specs.inside.Lasts.{AreChained, HasHash, HasKey, IsLast, AreNexts};

use mast_terms::NoMemory;
use std::alloc::Global;
use std::marker::Model;

// A place of a hash is one more than its index, and 0 is none.
#[derive(Drop)]
pub(crate) struct Chains {
    // for each key the last place that has it
    pub(crate) heads: Vec<u32>,
    // for each place the last one before it with its key
    pub(crate) nexts: Vec<u32>,
}

// A list of hashes, in which the last place of a hash is found at once. Contracts see the list.
#[derive(Drop)]
pub(crate) struct Hashes {
    hashes: Vec<u32>,
    chains: Chains,
}

impl Model for Hashes {
    ghost use Rattle.std.specs.Prelude.{ℕ, List, length, ◌<◌, ◌^◌};
    ghost use Rattle.mast_relations.specs.inside.Lasts.{AreFewChained};

    ghost Value = { List ℕ };

    ghost view = { λ h. h.hashes.items };

    ghost invariant = { λ h. AreFewChained h.hashes.items h.chains };
}

// Puts the next place, which has this hash.
fn link(hash: u32, heads: &mut Vec<u32>, nexts: &mut Vec<u32>) -> Result<(), NoMemory>
    requires some { 0 < length heads.old.items }
    requires few { length nexts.old.items + 1 < 2 ^ 32 }
    ensures nexts { OnOk result (nexts.new.items ≡ nexts.old.items ++ get_or heads.old.items (hash % length heads.old.items) 0 ∷ []) }
    ensures heads { OnOk result (heads.new.items ≡ set heads.old.items (hash % length heads.old.items) (length nexts.old.items + 1)) }
    ensures err_nexts { OnErr result (nexts.new.items ≡ nexts.old.items) }
    ensures err_heads { OnErr result (heads.new.items ≡ heads.old.items) }
{
    let key = hash as usize % heads.len();
    nexts.push(heads[key])?;
    heads[key] = nexts.len() as u32;
    Ok(())
}

// The chains of these hashes by so many keys.
fn chained(alloc: Global, hashes: &[u32], size: usize) -> Result<Chains, NoMemory>
    requires some { 0 < size }
    requires few { length hashes.now < 2 ^ 32 }
    ensures chains { IfOk result (AreChained hashes.now) }
    ensures size { IfOk result (λ chains. length chains.heads.items ≡ size) }
{
    let mut heads = vec![in alloc; 0u32; size]?;
    let mut nexts = Vec::new(alloc);
    for hash in hashes {
        link(*hash, &mut heads, &mut nexts)?;
    }
    Ok(Chains { heads, nexts })
}

// Makes the chains longer where there are as many hashes as keys.
fn widen(alloc: Global, hashes: &[u32], chains: &mut Chains) -> Result<(), NoMemory>
    requires few { length hashes.now < 2 ^ 32 }
    requires chains { AreChained hashes.now chains.old }
    ensures chains { AreChained hashes.now chains.new }
    ensures some { OnOk result (0 < length chains.new.heads.items) }
{
    if hashes.len() < chains.heads.len() {
        return Ok(());
    }
    *chains = chained(alloc, hashes, hashes.len() * 2 + 15)?;
    Ok(())
}

// The first place from this one on, along its chain, that has the hash; 0 where none has.
fn same(hashes: &[u32], chains: &Chains, hash: u32, place: u32) -> u32
    requires chains { AreChained hashes.now chains.now }
    requires within { place ≤ length hashes.now }
    ensures within { result ≤ length hashes.now }
    ensures last { (count : ℕ) → IsLast (HasKey hashes.now (length chains.now.heads.items) hash) (HasHash hashes.now hash) count place
        → IsLast (HasHash hashes.now hash) (HasHash hashes.now hash) count result }
{
    let mut place = place;
    while place > 0 {
        if hashes[place as usize - 1] == hash {
            return place;
        }
        place = chains.nexts[place as usize - 1];
    }
    place
}

impl Hashes {
    // No hash.
    pub(crate) fn new(alloc: Global) -> Hashes
        ensures { result ≡ [] }
    {
        Hashes {
            hashes: Vec::new(alloc),
            chains: Chains {
                heads: Vec::new(alloc),
                nexts: Vec::new(alloc),
            },
        }
    }

    // How many there are.
    pub(crate) fn len(&self) -> u32
        ensures { result ≡ length self.now }
    {
        self.hashes.len() as u32
    }

    // Puts one behind the others. For want of memory all is as it was.
    pub(crate) fn push(&mut self, alloc: Global, hash: u32) -> Result<(), NoMemory>
        requires few { length self.old + 1 < 2 ^ 32 }
        ensures ok { OnOk result (self.new ≡ self.old ++ hash ∷ []) }
        ensures err { OnErr result (self.new ≡ self.old) }
    {
        widen(alloc, &self.hashes, &mut self.chains)?;
        self.hashes.push(hash)?;
        match link(hash, &mut self.chains.heads, &mut self.chains.nexts) {
            Ok(()) => Ok(()),
            Err(e) => {
                self.hashes.pop();
                Err(e)
            }
        }
    }

    // One more than the last place of a hash; 0 where it has none.
    pub(crate) fn last(&self, hash: u32) -> u32
        ensures { IsLast (HasHash self.now hash) (HasHash self.now hash) (length self.now) result }
    {
        let size = self.chains.heads.len();
        if size == 0 {
            return 0;
        }
        same(
            &self.hashes,
            &self.chains,
            hash,
            self.chains.heads[hash as usize % size],
        )
    }

    // The same, of the places before one of a hash.
    pub(crate) fn before(&self, hash: u32, place: u32) -> u32
        requires some { 0 < place }
        requires within { place ≤ length self.now }
        requires hash { HasHash self.now hash (place - 1) }
        ensures { IsLast (HasHash self.now hash) (HasHash self.now hash) (place - 1) result }
    {
        let next = self.chains.nexts[place as usize - 1];
        same(&self.hashes, &self.chains, hash, next)
    }
}
