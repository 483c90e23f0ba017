// Definitions and theorems only: the bytes of an image's parts, and that reading and writing undo each other.
#![tactic(auto)]
