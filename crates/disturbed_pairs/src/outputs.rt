// Clause 9, "a port's output names that port back and no other": links, tile links and the control unit of slot 1, from either side.
use states::say::report;
use states::write::{TOKENS, WORDS, blank, set_hop, set_serves, set_tile_user, set_user};
use std::io;

fn link_of_a_port(rt: &impl Print) -> io::Result<()> {
    let mut st = [0u32; WORDS];
    let mem = [0u16; TOKENS];
    blank(&mut st);
    set_hop(&mut st, 1, 8, 1, 2, 0);
    report(rt, "9 a hop outward by a link that nobody uses", &st, &mem)?;
    set_user(&mut st, 1, 2, 1, 8);
    report(
        rt,
        "9 a hop outward by a link that names its port",
        &st,
        &mem,
    )
}

fn two_ports_of_a_link(rt: &impl Print) -> io::Result<()> {
    let mut st = [0u32; WORDS];
    let mem = [0u16; TOKENS];
    blank(&mut st);
    set_hop(&mut st, 1, 8, 1, 2, 0);
    set_user(&mut st, 1, 2, 1, 8);
    set_hop(&mut st, 1, 9, 1, 2, 0);
    report(rt, "9 two hops outward by one link", &st, &mem)?;
    set_hop(&mut st, 1, 9, 1, 3, 0);
    set_user(&mut st, 1, 3, 1, 9);
    report(rt, "9 two hops outward by two links", &st, &mem)
}

fn port_of_a_link(rt: &impl Print) -> io::Result<()> {
    let mut st = [0u32; WORDS];
    let mem = [0u16; TOKENS];
    blank(&mut st);
    set_user(&mut st, 1, 2, 1, 8);
    report(rt, "9 a link that names a port with no circuit", &st, &mem)?;
    set_hop(&mut st, 1, 8, 1, 2, 0);
    report(
        rt,
        "9 a link that names the port whose hop it is",
        &st,
        &mem,
    )
}

fn two_links_of_a_port(rt: &impl Print) -> io::Result<()> {
    let mut st = [0u32; WORDS];
    let mem = [0u16; TOKENS];
    blank(&mut st);
    set_hop(&mut st, 1, 8, 1, 2, 0);
    set_user(&mut st, 1, 2, 1, 8);
    set_user(&mut st, 1, 3, 1, 8);
    report(rt, "9 two links that name one port", &st, &mem)?;
    set_user(&mut st, 1, 3, 0, 0);
    report(rt, "9 one link that names it", &st, &mem)
}

fn tile_link_of_a_port(rt: &impl Print) -> io::Result<()> {
    let mut st = [0u32; WORDS];
    let mem = [0u16; TOKENS];
    blank(&mut st);
    set_hop(&mut st, 1, 0, 2, 255, 1);
    report(rt, "9 a hop by a tile link that nobody uses", &st, &mem)?;
    set_tile_user(&mut st, 1, 1, 1, 0);
    report(rt, "9 a hop by a tile link that names its port", &st, &mem)
}

fn two_ports_of_a_tile_link(rt: &impl Print) -> io::Result<()> {
    let mut st = [0u32; WORDS];
    let mem = [0u16; TOKENS];
    blank(&mut st);
    set_hop(&mut st, 1, 0, 2, 255, 1);
    set_tile_user(&mut st, 1, 1, 1, 0);
    set_hop(&mut st, 1, 3, 2, 255, 1);
    report(rt, "9 two hops by one tile link", &st, &mem)?;
    set_hop(&mut st, 1, 3, 2, 255, 2);
    set_tile_user(&mut st, 1, 2, 1, 3);
    report(rt, "9 two hops by two tile links", &st, &mem)
}

fn port_of_a_tile_link(rt: &impl Print) -> io::Result<()> {
    let mut st = [0u32; WORDS];
    let mem = [0u16; TOKENS];
    blank(&mut st);
    set_tile_user(&mut st, 1, 1, 1, 0);
    report(
        rt,
        "9 a tile link that names a port with no circuit",
        &st,
        &mem,
    )?;
    set_hop(&mut st, 1, 0, 2, 255, 1);
    report(
        rt,
        "9 a tile link that names the port whose hop it is",
        &st,
        &mem,
    )
}

fn two_tile_links_of_a_port(rt: &impl Print) -> io::Result<()> {
    let mut st = [0u32; WORDS];
    let mem = [0u16; TOKENS];
    blank(&mut st);
    set_hop(&mut st, 1, 0, 2, 255, 1);
    set_tile_user(&mut st, 1, 1, 1, 0);
    set_tile_user(&mut st, 1, 2, 1, 0);
    report(rt, "9 two tile links that name one port", &st, &mem)?;
    set_tile_user(&mut st, 1, 2, 0, 0);
    report(rt, "9 one tile link that names it", &st, &mem)
}

fn unit_of_a_port(rt: &impl Print) -> io::Result<()> {
    let mut st = [0u32; WORDS];
    let mem = [0u16; TOKENS];
    blank(&mut st);
    set_hop(&mut st, 1, 0, 3, 0, 0);
    report(
        rt,
        "9 a hop to a control unit that serves nobody",
        &st,
        &mem,
    )?;
    set_serves(&mut st, 1, 1, 0);
    report(
        rt,
        "9 a hop to a control unit that serves its port",
        &st,
        &mem,
    )
}

fn two_ports_of_a_unit(rt: &impl Print) -> io::Result<()> {
    let mut st = [0u32; WORDS];
    let mem = [0u16; TOKENS];
    blank(&mut st);
    set_hop(&mut st, 1, 0, 3, 0, 0);
    set_serves(&mut st, 1, 1, 0);
    set_hop(&mut st, 1, 3, 3, 0, 0);
    report(rt, "9 two hops to one control unit", &st, &mem)?;
    set_hop(&mut st, 1, 3, 0, 0, 0);
    report(rt, "9 one hop to it", &st, &mem)
}

fn port_of_a_unit(rt: &impl Print) -> io::Result<()> {
    let mut st = [0u32; WORDS];
    let mem = [0u16; TOKENS];
    blank(&mut st);
    set_serves(&mut st, 1, 1, 0);
    report(
        rt,
        "9 a control unit that serves a port with no circuit",
        &st,
        &mem,
    )?;
    set_hop(&mut st, 1, 0, 3, 0, 0);
    report(
        rt,
        "9 a control unit that serves the port whose hop it is",
        &st,
        &mem,
    )
}

pub fn outputs(rt: &impl Print) -> io::Result<()> {
    link_of_a_port(rt)?;
    two_ports_of_a_link(rt)?;
    port_of_a_link(rt)?;
    two_links_of_a_port(rt)?;
    tile_link_of_a_port(rt)?;
    two_ports_of_a_tile_link(rt)?;
    port_of_a_tile_link(rt)?;
    two_tile_links_of_a_port(rt)?;
    unit_of_a_port(rt)?;
    two_ports_of_a_unit(rt)?;
    port_of_a_unit(rt)
}
