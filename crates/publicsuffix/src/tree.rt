//! The rules as a tree of labels, from the last label inwards.
ghost use Rattle.std.specs.Prelude.{◌≡◌, ◌<◌, ◌%◌, IfOk, None, OnOk, length, string_bytes, vec_len};
ghost use Rattle.std.specs.List.{list_any};
ghost use Rattle.publicsuffix.specs.Rules as spec;
ghost use Rattle.publicsuffix.specs.Tree.{HasMore, HasNone, HasWildcard, IsBelow, IsGrown, IsLeaf, IsLinked};
ghost use Rattle.publicsuffix.specs.Tree.{Marks, child, edge_view, hangs_at, hashed, is_marked, mixed};
ghost use Rattle.publicsuffix.specs.View.{label_view};

use crate::label::Label;
use crate::rule::Rule;
use std::alloc::{AllocError, Global};

/// Where a node hangs.
#[derive(Debug, Drop)]
pub(crate) struct Edge {
    /// The node above, which is nearer the last label.
    parent: usize,
    /// The label that leads from there to the node.
    label: Label,
}

/// A node, which stands for the labels from its own to the last.
#[derive(Debug, Drop)]
pub(crate) struct Node {
    /// `None` at the root.
    up: Option<Edge>,
    /// Whether the node's labels are a rule that is no exception.
    plain: bool,
    /// Whether the node's labels are an exception.
    exception: bool,
    /// The node below whose label is `*`.
    wildcard: Option<usize>,
    /// The node before this one that falls into its bucket, or 0.
    next: usize,
}

impl Node {
    /// A node with nothing below it.
    pub(crate) fn new(up: Option<Edge>, next: usize) -> Node
        ensures { IsLeaf result (edge_view up) next }
    {
        Node {
            up,
            plain: false,
            exception: false,
            wildcard: None,
            next,
        }
    }

    /// Whether the node's labels are an exception.
    pub(crate) fn is_exception(&self) -> bool
        ensures { result ≡ self.now.exception }
    {
        self.exception
    }

    /// Whether the node's labels are a rule that is no exception.
    pub(crate) fn is_plain(&self) -> bool
        ensures { result ≡ self.now.plain }
    {
        self.plain
    }

    // Whether the node's labels are a rule.
    fn is_rule(&self) -> bool
        ensures { result ≡ is_marked (self.now.plain, self.now.exception) }
    {
        self.plain || self.exception
    }

    // Whether the node hangs below another at a text.
    fn hangs_at(&self, at: usize, text: &[u8]) -> bool
        ensures { result ≡ hangs_at at text.now (edge_view self.now.up) }
    {
        match &self.up {
            None => false,
            Some(edge) => at == edge.parent && edge.label.is_text(text),
        }
    }

    // Marks the node's labels as a rule.
    fn mark(&mut self, exception: bool)
        ensures { Marks self.old self.new exception }
    {
        if exception {
            self.exception = true;
        } else {
            self.plain = true;
        }
    }

    // Hangs another node below this one at the label `*`.
    fn lead(&mut self, next: usize)
        ensures { HasWildcard self.old self.new next }
    {
        self.wildcard = Some(next);
    }
}

/// The nodes of a tree, with a table that finds the node below another at a text.
#[derive(Debug, Drop)]
pub(crate) struct Tree {
    /// The root, and each node after the one that it hangs below.
    pub(crate) nodes: Vec<Node>,
    /// The last node that falls into each bucket, or 0.
    heads: Vec<usize>,
}

impl Tree {
    /// The tree of no rule, with so many buckets.
    pub(crate) fn new(alloc: Global, buckets: usize) -> Result<Tree, AllocError>
        requires { 0 < buckets }
        ensures grown { IfOk result (λ tree. IsGrown tree.nodes.items × HasNone tree.nodes.items) }
        ensures linked { IfOk result IsLinked }
    {
        let heads = Vec::from_elem(alloc, 0, buckets)?;
        let mut nodes = Vec::new(alloc);
        nodes.push(Node::new(None, 0))?;
        Ok(Tree { nodes, heads })
    }

    /// Puts a rule into the tree.
    pub(crate) fn insert(&mut self, rule: Rule) -> Result<(), AllocError>
        requires grown { IsGrown self.old.nodes.items }
        requires linked { IsLinked self.old }
        ensures more { IfOk result (λ _. HasMore self.old.nodes.items self.new.nodes.items rule) }
        ensures linked { OnOk result (IsLinked self.new) }
    {
        let (exception, mut labels) = rule.into_parts();
        let mut at = 0;
        while let Some(label) = labels.pop() {
            at = self.below(at, label)?;
        }
        self.nodes[at].mark(exception);
        Ok(())
    }

    /// Whether the tree has a rule.
    pub(crate) fn has_rule(&self) -> bool
        ensures { result ≡ list_any (λ n. is_marked (n.plain, n.exception)) self.now.nodes.items }
    {
        self.nodes.iter().any(|node| node.is_rule())
    }

    /// The node below another at a text.
    pub(crate) fn text(&self, at: usize, text: &[u8]) -> Option<usize>
        requires { IsLinked self.now }
        ensures { result ≡ child self.now.nodes.items at (spec.Text text.now) }
    {
        self.find(self.bucket(at, text), at, text)
    }

    // The bucket that a node at a text below another falls into.
    fn bucket(&self, at: usize, text: &[u8]) -> usize
        requires { IsLinked self.now }
        ensures { result ≡ hashed at text.now % length self.now.heads.items }
    {
        hashed(at, text) % self.heads.len()
    }

    // The node below another at a text, which falls into this bucket.
    fn find(&self, bucket: usize, at: usize, text: &[u8]) -> Option<usize>
        requires linked { IsLinked self.now }
        requires falls { bucket ≡ hashed at text.now % length self.now.heads.items }
        ensures { result ≡ child self.now.nodes.items at (spec.Text text.now) }
    {
        let mut next = self.heads[bucket];
        while next > 0 {
            let node = &self.nodes[next];
            if node.hangs_at(at, text) {
                return Some(next);
            }
            next = node.next;
        }
        None
    }

    /// The node below another at the label `*`.
    pub(crate) fn wildcard(&self, at: usize) -> Option<usize>
        requires { at < vec_len self.now.nodes }
        ensures { result ≡ child self.now.nodes.items at spec.Wildcard }
    {
        self.nodes[at].wildcard
    }

    // The node below another at a label, which is made where there is none.
    fn below(&mut self, at: usize, label: Label) -> Result<usize, AllocError>
        requires grown { IsGrown self.old.nodes.items }
        requires linked { IsLinked self.old }
        requires within { at < vec_len self.old.nodes }
        ensures below { IfOk result (λ found. IsBelow self.old.nodes.items self.new.nodes.items at
            (label_view label) found) }
        ensures linked { OnOk result (IsLinked self.new) }
    {
        match label {
            Label::Wildcard => match self.wildcard(at) {
                Some(found) => Ok(found),
                None => self.hang_wildcard(at),
            },
            Label::Text(form) => {
                let bucket = self.bucket(at, form.as_bytes());
                match self.find(bucket, at, form.as_bytes()) {
                    Some(found) => Ok(found),
                    None => self.hang_text(bucket, at, form),
                }
            }
        }
    }

    // Makes the node below another at the label `*`.
    fn hang_wildcard(&mut self, at: usize) -> Result<usize, AllocError>
        requires grown { IsGrown self.old.nodes.items }
        requires linked { IsLinked self.old }
        requires within { at < vec_len self.old.nodes }
        requires free { child self.old.nodes.items at spec.Wildcard ≡ None }
        ensures below { IfOk result (λ made. IsBelow self.old.nodes.items self.new.nodes.items at spec.Wildcard made) }
        ensures linked { OnOk result (IsLinked self.new) }
    {
        let next = self.nodes.len();
        self.nodes[at].lead(next);
        let up = Edge {
            parent: at,
            label: Label::Wildcard,
        };
        self.nodes.push(Node::new(Some(up), 0))?;
        Ok(next)
    }

    // Makes the node below another at a text, which falls into this bucket.
    fn hang_text(&mut self, bucket: usize, at: usize, form: String) -> Result<usize, AllocError>
        requires grown { IsGrown self.old.nodes.items }
        requires linked { IsLinked self.old }
        requires within { at < vec_len self.old.nodes }
        requires falls { bucket ≡ hashed at (string_bytes form) % length self.old.heads.items }
        requires free { child self.old.nodes.items at (spec.Text (string_bytes form)) ≡ None }
        ensures below { IfOk result (λ made. IsBelow self.old.nodes.items self.new.nodes.items at
            (spec.Text (string_bytes form)) made) }
        ensures linked { OnOk result (IsLinked self.new) }
    {
        let next = self.nodes.len();
        let before = self.heads[bucket];
        let up = Edge {
            parent: at,
            label: Label::Text(form),
        };
        self.nodes.push(Node::new(Some(up), before))?;
        self.heads[bucket] = next;
        Ok(next)
    }
}

// The hash of a text below a node.
fn hashed(at: usize, text: &[u8]) -> usize
    ensures { result ≡ hashed at text.now }
{
    let mut hash = at;
    let mut read = 0;
    while read < text.len() {
        hash = mixed(hash, text[read]);
        read += 1;
    }
    hash
}

// The hash of a text with one byte more.
fn mixed(hash: usize, byte: u8) -> usize
    ensures { result ≡ mixed hash byte }
{
    hash.wrapping_add(byte as usize)
        .wrapping_mul(0x9E37_79B9_7F4A_7C15)
}
