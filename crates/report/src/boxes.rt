// The box of a feature.
use console::{Double, Refused};
use job_calls::Edges;
use std::io;

fn write_edges<W: io::Write>(out: &mut W, edges: Edges) -> io::Result<()> {
    let least_x = Double(edges.least_x);
    let least_y = Double(edges.least_y);
    let greatest_x = Double(edges.greatest_x);
    let greatest_y = Double(edges.greatest_y);
    writeln!(
        out,
        "x {least_x} to {greatest_x}, y {least_y} to {greatest_y}"
    )
}

pub fn show_box<W: io::Write>(out: &mut W, edges: Result<Edges, Refused>) -> io::Result<()> {
    write!(out, "  box: ")?;
    match edges {
        Err(refused) => writeln!(out, "{refused}"),
        Ok(edges) if edges == Edges::NOTHING => writeln!(out, "around nothing"),
        Ok(edges) => write_edges(out, edges),
    }
}
