//! The way down the tree by the labels of a name, to the rule that prevails.
ghost use Rattle.std.specs.Prelude.{◌≡◌, ◌<◌, ◌+◌, ◌^◌, ◌++◌, ◌∷◌, [], ℕ, List, length, IfSome, MatchOption};
ghost use Rattle.std.specs.List.{AllZip};
ghost use Rattle.idna.specs.Labels.{labels_of};
ghost use Rattle.publicsuffix.specs.Prevailing.{Fits, NoneMatches};
ghost use Rattle.publicsuffix.specs.Rules as spec;
ghost use Rattle.publicsuffix.specs.Tree.{IsGrown, IsLinked, rules_of};
ghost use Rattle.publicsuffix.specs.Walk.{IsAt, IsFirst, IsFirstOf, Reaches, TellsPrevailing};
ghost use Rattle.publicsuffix.specs.Walk.{covered_by, labels_left, own_of, ways_of};

use crate::name::Name;
use crate::tree::{Node, Tree};

/// A rule that matches: whether it is an exception, and how many labels it has.
#[derive(Clone, Copy, Debug)]
pub(crate) struct Found {
    exception: bool,
    labels: usize,
}

impl Found {
    /// How many labels of the name the rule covers: an exception leaves out its leftmost.
    pub(crate) fn covered(&self) -> usize
        ensures { result ≡ covered_by self.now }
    {
        if self.exception {
            self.labels.saturating_sub(1)
        } else {
            self.labels
        }
    }
}

/// The rule of the tree that prevails for the name, if any matches it.
pub(crate) fn prevailing(tree: &Tree, name: &Name) -> Option<Found>
    requires grown { IsGrown tree.now.nodes.items }
    requires linked { IsLinked tree.now }
    ensures { MatchOption result
        (NoneMatches (rules_of tree.now.nodes.items) (labels_of name.now.text.now))
        (TellsPrevailing (rules_of tree.now.nodes.items) (labels_of name.now.text.now)) }
{
    let _count = name.count();
    best(tree, Some(0), 0, Some(name.text()))
}

// The rule put before the others among those that match and stand at a node or below it. A call waits for another only
// where the way parts, so the calls that wait are no more than a rule has labels beside which others stand.
fn best(tree: &Tree, from: Option<usize>, depth: usize, rest: Option<&[u8]>) -> Option<Found>
    requires within { IfSome from (λ i. i < length tree.now.nodes.items) }
    requires grown { IsGrown tree.now.nodes.items }
    requires linked { IsLinked tree.now }
    requires room { depth + length (labels_left rest) < 2 ^ 64 }
    ensures { (path : List spec.Label) (back : List (List ℕ)) →
        IsAt tree.now.nodes.items from path → AllZip Fits path back → depth ≡ length path →
        IsFirst (Reaches (rules_of tree.now.nodes.items) (labels_left rest.entry ++ back) path) result }
{
    let mut way = from;
    let mut depth = depth;
    let mut rest = rest;
    let mut found = None;
    while let Some(at) = way {
        let node = &tree.nodes[at];
        found = first_found(found, own(node, depth));
        let Some(text) = rest else {
            return found;
        };
        let (front, label) = split_last(text);
        rest = front;
        depth += 1;
        let (next, other) = ways(tree, at, label);
        let aside = match other {
            Some(_) => best(tree, other, depth, rest),
            None => None,
        };
        found = first_found(found, aside);
        way = next;
    }
    found
}

// The rule at the node that is put before the other there.
fn own(node: &Node, depth: usize) -> Option<Found>
    ensures { result ≡ own_of node.now.plain node.now.exception depth }
{
    if node.is_exception() {
        Some(Found {
            exception: true,
            labels: depth,
        })
    } else if node.is_plain() {
        Some(Found {
            exception: false,
            labels: depth,
        })
    } else {
        None
    }
}

// The ways down from a node that the name's label fits: one to go on by, and the other.
fn ways(tree: &Tree, at: usize, label: &[u8]) -> (Option<usize>, Option<usize>)
    requires within { at < length tree.now.nodes.items }
    requires linked { IsLinked tree.now }
    ensures { result ≡ ways_of tree.now.nodes.items at label.now }
{
    let wildcard = tree.wildcard(at);
    match tree.text(at, label) {
        Some(text) => (Some(text), wildcard),
        None => (wildcard, None),
    }
}

// The labels before the last, and the last.
fn split_last(text: &[u8]) -> (Option<&[u8]>, &[u8])
    ensures { labels_of text.now ≡ labels_left result.0 ++ result.1.now ∷ [] }
{
    let mut end = text.len();
    while end > 0 {
        if text[end - 1] == b'.' {
            return (Some(&text[..end - 1]), &text[end..]);
        }
        end -= 1;
    }
    (None, text)
}

// The one of the two that is put before the other.
fn first_found(one: Option<Found>, other: Option<Found>) -> Option<Found>
    ensures { IsFirstOf one other result }
{
    match one {
        None => other,
        Some(a) => match other {
            None => Some(a),
            Some(b) => {
                if a.exception == b.exception {
                    Some(if a.labels >= b.labels { a } else { b })
                } else {
                    Some(if a.exception { a } else { b })
                }
            }
        },
    }
}
