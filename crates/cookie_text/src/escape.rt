//! What is escaped in a printed name or value.
use percent_encoding::{AsciiSet, CONTROLS, ascii_set};

/// The bytes that are escaped, beside all past ASCII.
pub const PROFILE: AsciiSet = ascii_set!(
    CONTROLS
        .add(b' ')
        .add(b'"')
        .add(b'<')
        .add(b'>')
        .add(b'`')
        .add(b'#')
        .add(b'?')
        .add(b'{')
        .add(b'}')
        .add(b'/')
        .add(b':')
        .add(b';')
        .add(b'=')
        .add(b'@')
        .add(b'[')
        .add(b'\\')
        .add(b']')
        .add(b'^')
        .add(b'|')
        .add(b'%')
        .add(b'(')
        .add(b')')
        .add(b',')
);
