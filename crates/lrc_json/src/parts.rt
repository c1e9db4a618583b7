//! Objects within other objects.

use serde::Serialize;

/// A fragment and the path of its file.
#[derive(Drop, Serialize)]
pub struct FileObject {
    /// The number of the fragment.
    pub number: u8,
    /// The path of its file.
    pub path: String,
}

/// The state of a fragment.
#[derive(Drop, Serialize)]
pub struct FragmentObject {
    /// The number of the fragment.
    pub number: u8,
    /// `whole`, `damaged`, `altered` or `missing`.
    pub state: &'static str,
    /// The path of its file, or null if it is missing.
    pub path: Option<String>,
    /// What is damaged, or null.
    pub details: Option<String>,
    /// How many records are missing or damaged.
    pub lost_records: u64,
    /// The first stripe with such a record, or null.
    pub first_lost_stripe: Option<u64>,
}

/// A path that is not of the set.
#[derive(Drop, Serialize)]
pub struct OtherObject {
    /// The path.
    pub path: String,
    /// Why it is not of the set.
    pub reason: String,
}

/// Stripes, and the fragments that are lost there.
#[derive(Drop, Serialize)]
pub struct StripesObject {
    /// The first of the stripes.
    pub first_stripe: u64,
    /// How many stripes.
    pub stripes: u64,
    /// The lost fragments.
    pub lost: Vec<u8>,
}

/// The stripe that ended a join.
#[derive(Drop, Serialize)]
pub struct StopObject {
    /// The number of the stripe.
    pub stripe: u64,
    /// Its first byte in the file.
    pub byte: u64,
    /// The fragments that are lost there.
    pub lost: Vec<u8>,
}
