//! The definitions of v0 symbols (RFC 2603), and what follows from them: the productions, reading
//! and spelling them, and what the looks at a symbol's bytes cost. It has no code.
#![tactic(auto)]
