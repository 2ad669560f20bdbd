//! The texts of conditions and definitions: their signs, their grammar, and what reading them gives. Definitions only.
#![tactic(auto)]
