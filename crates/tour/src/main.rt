//! A walk through the kit with one real sequence: what goes in, what comes out, and what is refused.

#![tactic(auto)]

mod images;
mod texts;

fn main(rt: HostRuntime) -> anyhow::Result<()> {
    tour(&rt)
}

fn tour(rt: &HostRuntime) -> anyhow::Result<()> {
    let image = texts::show_translation(rt)?;
    let listing = images::show_image(rt, image.as_slice())?;
    texts::show_way_back(rt, image.as_slice(), listing.as_str())?;
    images::show_damaged(rt, image.as_slice())?;
    texts::show_stale(rt, listing.as_str())
}
