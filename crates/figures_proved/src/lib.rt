// The worked figures of rules 14.3 to 14.10 that are marked *, and corners that they leave out, each computed from the definitions. It has
// no code of its own.
#![tactic(auto)]
