//! The subject's definitions: values, relations, sorts, layers, views and histories. The crate holds no code.
#![tactic(auto)]
