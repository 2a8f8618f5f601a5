//! The library for C: zones, updates and resolvers behind opaque handles, and messages.
//!
//! `include/rumstrait.h` says what each function does. For C a slice is a pointer and a length, and a `Global` is nothing.
//! An export only moves pointers: a function beside it does the work, with the clauses of the export.
//!
//! - `codes`: what the functions return;
//! - `zone`: zones behind handles;
//! - `message`: messages in buffers of the caller;
//! - `update`: updates behind handles;
//! - `resolver`: resolvers behind handles; `lookup`: their lookups, by number; `wait`: what a lookup waits for.
#![tactic(auto)]

mod codes;
mod lookup;
mod message;
mod resolver;
mod update;
mod wait;
mod zone;
