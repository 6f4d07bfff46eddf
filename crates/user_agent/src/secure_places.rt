//! Where the Secure rows of a store stand by their names, for the rule on overlays while many lines come at once.
ghost use Rattle.std.specs.Prelude.{◌≡◌, ◌↔◌, ◌++◌, ℕ, [], ◌∷◌, List, IfOk, IsTrue, None, OnOk, false, filter, map};
ghost use Rattle.std.specs.Str.{bytes_eq};
ghost use Rattle.percent_encoding.specs.Percent.{percent_decode};
ghost use Rattle.jiff.specs.Words.{civil_nanos};
ghost use Rattle.cookie_store.specs.StoredCookie.{stored_of};
ghost use Rattle.user_agent.specs.Refusals.{HasOne, IsOverlaid};
ghost use Rattle.user_agent.specs.SecurePlaces as spec;

use crate::judging::{are_nested, is_secure_and_live, overlies_one, row_domain};
use crate::rules::Rules;
use crate::secure_wins::decoded;
use cookie_store::utils::is_secure;
use cookie_store::{Cookie, CookieStore};
use jiff::civil::DateTime;
use matching::path_matches;
use std::alloc::{AllocError, Global};
use std::collections::BTreeMap;
use std::marker::Model;
use url::Url;

/// Where the `Secure` rows of a store stand that aren't expired, by their decoded names: so the rule on overlays asks
/// for the rows of a line's name alone. Or none are kept, and it looks at each row.
///
/// Contracts see it as the places of each name: the texts of a row's domain and path.
#[derive(Drop, Debug)]
pub struct SecurePlaces {
    places: Option<BTreeMap<Vec<u8>, Vec<Place>>>,
}

impl Model for SecurePlaces {
    ghost use Rattle.std.specs.Prelude.{option_map};
    ghost use Rattle.user_agent.specs.SecurePlaces.{Places, entries_of};

    ghost Value = { Places };

    ghost view = { λ s. option_map entries_of s.places };
}

// The texts of a row's domain and path.
#[derive(Drop, Debug)]
pub(crate) struct Place {
    domain: String,
    path: String,
}

impl SecurePlaces {
    /// None.
    pub fn none() -> SecurePlaces
        ensures { result ≡ None }
    {
        SecurePlaces { places: None }
    }

    /// Those of a store, for so many lines of an answer from this URL at `now`. None where the lines are few, or where
    /// one may change a `Secure` row: where the URL is secure, or `secure_from_http` or `secure_overlay` is off.
    ///
    /// # Errors
    ///
    /// `AllocError` where there is no memory for them.
    pub fn of(
        alloc: Global,
        store: &CookieStore,
        rules: &Rules,
        url: &Url,
        lines: usize,
        now: DateTime,
    ) -> Result<SecurePlaces, AllocError>
        ensures { IfOk result (λ places.
            spec.ArePlacesOf places rules.now url.now (civil_nanos now) store.now.rows) }
    {
        // Fewer lines look at each row in less time than its name and its place are copied.
        if lines < 24 || !rules.secure_from_http || !rules.secure_overlay || is_secure(url) {
            return Ok(SecurePlaces::none());
        }
        let places = places_by_name(alloc, store, now)?;
        Ok(SecurePlaces {
            places: Some(places),
        })
    }

    /// Whether one of the store's rows is overlaid by a cookie of this name, domain and path.
    pub(crate) fn overlies(
        &self,
        alloc: Global,
        store: &CookieStore,
        name: &str,
        domain: &str,
        path: &str,
        now: DateTime,
    ) -> Result<bool, AllocError>
        requires { spec.ShowPlaces self.now (civil_nanos now) store.now.rows }
        ensures { IfOk result (λ over. IsTrue over
            ↔ HasOne (IsOverlaid name.now domain.now path.now (civil_nanos now)) store.now.rows) }
    {
        match &self.places {
            Some(places) => overlies_place(alloc, places, name, domain, path),
            None => Ok(overlies_one(store, name, domain, path, now)),
        }
    }
}

// The places of each decoded name.
fn places_by_name(
    alloc: Global,
    store: &CookieStore,
    now: DateTime,
) -> Result<BTreeMap<Vec<u8>, Vec<Place>>, AllocError>
    ensures { IfOk result (λ places. (name : List ℕ)
        → spec.places_at places name ≡ spec.secure_places_of (civil_nanos now) name store.now.rows) }
{
    let mut places = BTreeMap::new(alloc);
    for row in store.iter_any() {
        if is_secure_and_live(row, now) {
            put_place(alloc, &mut places, row)?;
        }
    }
    Ok(places)
}

// Puts the row's place behind those of its decoded name.
fn put_place(
    alloc: Global,
    places: &mut BTreeMap<Vec<u8>, Vec<Place>>,
    row: &Cookie<'static>,
) -> Result<(), AllocError>
    ensures { OnOk result ((name : List ℕ) → spec.places_at places.new name ≡ spec.places_at places.old name
        ++ map spec.place_of (filter (spec.is_named name) (stored_of row.now ∷ []))) }
{
    let name = decoded(alloc, row.raw().name())?;
    let place = place_of(alloc, row)?;
    let mut of_name = take_places(alloc, places, name.as_slice());
    of_name.push(place)?;
    places.insert(name, of_name)?;
    Ok(())
}

// Takes the places of a decoded name out.
fn take_places(alloc: Global, places: &mut BTreeMap<Vec<u8>, Vec<Place>>, name: &[u8]) -> Vec<Place>
    ensures those { map spec.texts_of result.items ≡ spec.places_at places.old name.now }
    ensures others { (other : List ℕ) → bytes_eq other name.now ≡ false
        → spec.places_at places.new other ≡ spec.places_at places.old other }
{
    match places.remove(name) {
        Some(of_name) => of_name,
        None => Vec::new(alloc),
    }
}

// The row's place.
fn place_of(alloc: Global, row: &Cookie<'static>) -> Result<Place, AllocError>
    ensures { IfOk result (λ place. spec.texts_of place ≡ spec.place_of (stored_of row.now)) }
{
    let domain = String::from_str(alloc, row_domain(row))?;
    let path = String::from_str(alloc, row.path.as_str())?;
    Ok(Place { domain, path })
}

// Whether a cookie of this domain and path reaches one of the places that its decoded name has.
fn overlies_place(
    alloc: Global,
    places: &BTreeMap<Vec<u8>, Vec<Place>>,
    name: &str,
    domain: &str,
    path: &str,
) -> Result<bool, AllocError>
    ensures { IfOk result (λ over. IsTrue over
        ↔ spec.IsOneReached domain.now path.now (spec.places_at places.now (percent_decode name.now))) }
{
    let name = decoded(alloc, name)?;
    match places.get(name.as_slice()) {
        Some(of_name) => Ok(reaches_one(of_name, domain, path)),
        None => Ok(false),
    }
}

// Whether a cookie of this domain and path reaches one of the places.
fn reaches_one(places: &[Place], domain: &str, path: &str) -> bool
    ensures { IsTrue result ↔ spec.IsOneReached domain.now path.now (map spec.texts_of places.now) }
{
    for place in places {
        if reaches(place, domain, path) {
            return true;
        }
    }
    false
}

// Whether the place has a domain nested with this one, and a path that this one matches.
fn reaches(place: &Place, domain: &str, path: &str) -> bool
    ensures { IsTrue result ↔ spec.IsReached domain.now path.now (spec.texts_of place.now) }
{
    are_nested(domain, place.domain.as_str()) && path_matches(place.path.as_str(), path)
}
