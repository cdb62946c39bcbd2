//! Values of the language as plain numbers and lists, defined once for the meaning of scripts, the heap, the operators
//! and the encoders: numbers, and the order of own keys. It holds no code.
#![tactic(auto)]
