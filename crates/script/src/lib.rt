// What a script is made of: reading its lines by forms, what a line is, the reports that it makes, and
// the shelf that it starts from.
//
// Nothing here reads or writes by itself, and no function asks anything of its caller. Each public one
// is proved equal to a definition of specs/, or of the model.

#![tactic(auto)]

pub mod line;
pub mod report;
pub mod shelf_w;
pub mod text;
