// Settings read and saved, one case after another: what was given and what came out.
#![tactic(auto)]

mod line;
mod reading;
mod saving;

use std::io;

fn read(rt: &impl Print) -> io::Result<()> {
    reading::windows(rt)?;
    reading::allowances(rt)?;
    reading::repositories(rt)?;
    reading::notes(rt)?;
    reading::several(rt)?;
    reading::unknown(rt)?;
    reading::cut_short(rt)?;
    reading::out_of_order(rt)
}

fn save(rt: &impl Print) -> io::Result<()> {
    saving::each(rt)?;
    saving::several(rt)?;
    saving::no_room(rt)?;
    saving::wrong_windows(rt)?;
    saving::wrong_allowances(rt)?;
    saving::wrong_texts(rt)?;
    saving::low_carried(rt)?;
    saving::wrong_carried(rt)
}

fn main(rt: HostRuntime) -> io::Result<()> {
    read(&rt)?;
    save(&rt)
}
