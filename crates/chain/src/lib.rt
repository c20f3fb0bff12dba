#![tactic(auto)]

// Theorems only.
