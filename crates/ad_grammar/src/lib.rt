//! The grammar of the functional-style syntax: which tokens spell which tree. Its definitions stand in
//! `specs/`; there is no code.
#![tactic(auto)]
