//! Which domains and paths a request can meet, and what an index of rows is after one more and one fewer.

ghost use Rattle.place_index.specs.Candidates.{AreDomains, ArePaths, AreCounted};
ghost use Rattle.place_index.specs.Found.{FindsExactly, LooksAreFew};
ghost use Rattle.place_index.specs.Inserting.{AgreesAfter};
ghost use Rattle.place_index.specs.Taking.{AgreesWithout};

/// The domains asked for are the host and what it ends with after a dot; the paths are those that the request-path
/// path-matches (RFC 6265, 5.1.4); and how many they are.
pub fn candidates()
    ensures domains { AreDomains }
    ensures paths { ArePaths }
    ensures counted { AreCounted }
{}

/// An index whose later parts were moved agrees with the rows after one more was put in: last for a new domain,
/// behind the domain's rows for a new path, else behind the path's.
pub fn insertions()
    ensures { AgreesAfter }
{}

/// An index whose later parts were moved back agrees with the rows after one was taken out: the part of a domain's
/// only row is gone, else that of a path's only row, else the path's is one shorter.
pub fn removals()
    ensures { AgreesWithout }
{}

/// The rows in the parts that are found for a host and a request-path are those whose domain and path are asked for;
/// that takes one question and the host's dots, and for each domain found one and twice the path's slashes.
pub fn findings()
    ensures exactly { FindsExactly }
    ensures few { LooksAreFew }
{}
