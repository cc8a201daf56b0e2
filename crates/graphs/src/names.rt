ghost use Rattle.std.specs.Prelude.{◌≡◌, length, ℕ, List, bytes_eq, unwrap_or, false, IfOk, OnOk};
ghost use Rattle.graphs.specs.NamesByPlace.{texts, place_of, number_of, KnowsPlaces};

use machine::NoMemory;
use std::alloc::Global;
use std::collections::BTreeMap;
use std::marker::Model;

/// Names in a list, whose places are found by their bytes. Contracts see the list of them.
#[derive(Drop)]
pub struct Names<'a> {
    names: Vec<&'a [u8]>,
    places: BTreeMap<&'a [u8], usize>,
}

impl<'a> Model for Names<'a> {
    ghost use Rattle.std.specs.Prelude.{List, ℕ};
    ghost use Rattle.graphs.specs.NamesByPlace.{texts, KnowsPlaces};

    ghost Value = { List (List ℕ) };

    ghost view = { λ known. texts known.names.items };

    ghost invariant = { λ known. KnowsPlaces (texts known.names.items) known.places };
}

impl<'a> Names<'a> {
    /// These names, in this order; one may be there more than once.
    pub fn new(alloc: Global, names: &[&'a [u8]]) -> Result<Names<'a>, NoMemory>
        ensures { IfOk result (λ known. known ≡ texts names.now) }
    {
        let places = first_places(alloc, names)?;
        let names = Vec::from_slice(alloc, names)?;
        Ok(Names { names, places })
    }

    /// How many they are.
    pub fn count(&self) -> usize
        ensures { result ≡ length self.now }
    {
        self.names.len()
    }

    /// The place of the first that is this one, or None if there is none.
    pub fn place(&self, name: &[u8]) -> Option<usize>
        ensures { result ≡ place_of self.now name.now }
    {
        self.places.get(name).copied()
    }
}

// The place of the first of each name.
fn first_places<'a>(
    alloc: Global,
    names: &[&'a [u8]],
) -> Result<BTreeMap<&'a [u8], usize>, NoMemory>
    ensures { IfOk result (λ places. KnowsPlaces (texts names.now) places) }
{
    let mut places = BTreeMap::new(alloc);
    for (i, name) in names.iter().enumerate() {
        give_place(&mut places, name, i)?;
    }
    Ok(places)
}

// Gives the name this place, unless it has one.
fn give_place<'a>(
    places: &mut BTreeMap<&'a [u8], usize>,
    name: &'a [u8],
    place: usize,
) -> Result<(), NoMemory>
    ensures own { OnOk result
        (number_of places.new name.now ≡ Some (unwrap_or (number_of places.old name.now) place)) }
    ensures others { OnOk result
        ((q : List ℕ) → bytes_eq name.now q ≡ false
        → number_of places.new q ≡ number_of places.old q) }
{
    if places.get(name).is_none() {
        places.insert(name, place)?;
    }
    Ok(())
}
