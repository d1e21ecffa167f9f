// What no clause says: that calls succeed, and what the system does.
mod memory;
mod system;
