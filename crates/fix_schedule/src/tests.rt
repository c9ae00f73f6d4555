//! That times have their windows, also where the clock changes, and that a text that is no rule is refused.
use super::*;
use fix_settings::Settings;
use std::alloc::Global;
use std::process::Abort;
use std::test::Fail;

// What `read` answers to a session with the keys that it must have, and these lines.
fn read(
    rt: &impl Abort,
    alloc: Global,
    lines: &str,
) -> Result<Result<Schedule, ScheduleFault>, Fail> {
    let mut text = String::from_str(
        alloc,
        "[SESSION]\nBeginString=FIX.4.2\nSenderCompID=SELL\nTargetCompID=BUY\n",
    )?;
    text.push_str(lines)?;
    assert!(rt; text.len() < 10_000);
    let settings = match Settings::read(alloc, &text) {
        Ok(settings) => settings,
        Err(_) => return Err(Fail::from("refused")),
    };
    let [session] = settings.sessions() else {
        return Err(Fail::from("one session"));
    };
    Ok(Schedule::read(session))
}

fn schedule_of(rt: &impl Abort, alloc: Global, lines: &str) -> Result<Schedule, Fail> {
    Ok(read(rt, alloc, lines)?.ok().ok_or("no schedule")?)
}

fn is_bad_rule(rt: &impl Abort, alloc: Global, lines: &str) -> Result<bool, Fail> {
    Ok(match read(rt, alloc, lines)? {
        Ok(_) => false,
        Err(fault) => fault == ScheduleFault::BadRule,
    })
}

// The windows were computed apart, by Python's zoneinfo with a file whose footer is the rule, in
// which the first of two instants counts and a time that is skipped is read by the clock before.
// Those of clocks a whole day from UTC, which zoneinfo refuses, were computed by hand.

#[test]
fn windows_over_midnight_and_within_a_day(rt: HostRuntime) -> Result<(), Fail> {
    let schedule = schedule_of(&rt, rt.alloc(), "StartTime=22:00:00\nEndTime=02:00:00\n")?;
    assert!(rt; schedule.window(1704247200000000) == Some((1704232800000000, 1704247200000000)));
    assert!(rt; schedule.window(1704247200000001) == None);
    let schedule = schedule_of(
        &rt,
        rt.alloc(),
        "StartTime=02:30:00\nEndTime=22:00:00\nZoneRule=EST5EDT,M3.2.0,M11.1.0\n",
    )?;
    assert!(rt; schedule.window(1710060000000000) == Some((1710055800000000, 1710122400000000)));
    let schedule = schedule_of(&rt, rt.alloc(), "StartTime=22:00:00\nEndTime=02:00:00\n")?;
    assert!(rt; schedule.window(1704232800000000) == Some((1704232800000000, 1704247200000000)));
    assert!(rt; schedule.window(1704232799999999) == None);
    let schedule = schedule_of(&rt, rt.alloc(), "StartTime=08:00:00\nEndTime=17:00:00\n")?;
    assert!(rt; schedule.window(1704196800000000) == Some((1704182400000000, 1704214800000000)));
    assert!(rt; schedule.window(1704214800000001) == None);
    let schedule = schedule_of(&rt, rt.alloc(), "StartTime=00:00:00\nEndTime=00:00:00\n")?;
    assert!(rt; schedule.window(1704189600000000) == Some((1704153600000000, 1704240000000000)));
    assert!(rt; schedule.window(1704153600000000) == Some((1704153600000000, 1704240000000000)));
    assert!(rt; schedule.window(1704153599999999) == Some((1704067200000000, 1704153600000000)));
    Ok(())
}

#[test]
fn windows_of_a_week(rt: HostRuntime) -> Result<(), Fail> {
    let schedule = schedule_of(
        &rt,
        rt.alloc(),
        "StartTime=18:00:00\nEndTime=17:00:00\nStartDay=sunday\nEndDay=Friday\n",
    )?;
    assert!(rt; schedule.window(1704283200000000) == Some((1704045600000000, 1704474000000000)));
    assert!(rt; schedule.window(1704542400000000) == None);
    let schedule = schedule_of(
        &rt,
        rt.alloc(),
        "StartTime=08:00:00\nEndTime=17:00:00\nStartDay=Mon\nEndDay=Mon\n",
    )?;
    assert!(rt; schedule.window(1704110400000000) == Some((1704096000000000, 1704128400000000)));
    assert!(rt; schedule.window(1704196800000000) == None);
    let schedule = schedule_of(
        &rt,
        rt.alloc(),
        "StartTime=17:00:00\nEndTime=08:00:00\nStartDay=Mon\nEndDay=Mon\n",
    )?;
    assert!(rt; schedule.window(1704456000000000) == Some((1704128400000000, 1704700800000000)));
    assert!(rt; schedule.window(1704715200000000) == None);
    let schedule = schedule_of(
        &rt,
        rt.alloc(),
        "StartTime=12:00:00\nEndTime=12:00:00\nStartDay=Mon\nEndDay=Mon\n",
    )?;
    assert!(rt; schedule.window(1704715200000000) == Some((1704715200000000, 1705320000000000)));
    assert!(rt; schedule.window(1704715199999999) == Some((1704110400000000, 1704715200000000)));
    let schedule = schedule_of(
        &rt,
        rt.alloc(),
        "StartTime=18:00:00\nEndTime=06:00:00\nStartDay=Friday\nEndDay=Mon\n",
    )?;
    assert!(rt; schedule.window(1704675600000000) == Some((1704477600000000, 1704693600000000)));
    assert!(rt; schedule.window(1704330000000000) == None);
    let schedule = schedule_of(
        &rt,
        rt.alloc(),
        "StartTime=06:00:00\nEndTime=18:00:00\nStartDay=SAT\nEndDay=sunday\n",
    )?;
    assert!(rt; schedule.window(1704589200000000) == Some((1704520800000000, 1704650400000000)));
    let schedule = schedule_of(
        &rt,
        rt.alloc(),
        "StartTime=17:00:00\nEndTime=17:00:00\nStartDay=sunday\nEndDay=sunday\nZoneRule=EST5EDT,M3.2.0,M11.1.0\n",
    )?;
    assert!(rt; schedule.window(1709985600000000) == Some((1709503200000000, 1710104400000000)));
    assert!(rt; schedule.window(1710104400000000) == Some((1710104400000000, 1710709200000000)));
    Ok(())
}

#[test]
fn the_hour_that_is_skipped(rt: HostRuntime) -> Result<(), Fail> {
    let schedule = schedule_of(
        &rt,
        rt.alloc(),
        "StartTime=22:00:00\nEndTime=02:30:00\nZoneRule=EST5EDT,M3.2.0,M11.1.0\n",
    )?;
    assert!(rt; schedule.window(1710055800000000) == Some((1710039600000000, 1710055800000000)));
    assert!(rt; schedule.window(1710055800000001) == None);
    assert!(rt; schedule.window(1710055799000000) == Some((1710039600000000, 1710055800000000)));
    let schedule = schedule_of(
        &rt,
        rt.alloc(),
        "StartTime=02:00:00\nEndTime=22:00:00\nZoneRule=EST5EDT,M3.2.0,M11.1.0\n",
    )?;
    assert!(rt; schedule.window(1710054000000000) == Some((1710054000000000, 1710122400000000)));
    assert!(rt; schedule.window(1710053999999999) == None);
    let schedule = schedule_of(
        &rt,
        rt.alloc(),
        "StartTime=03:00:00\nEndTime=22:00:00\nZoneRule=EST5EDT,M3.2.0,M11.1.0\n",
    )?;
    assert!(rt; schedule.window(1710054000000000) == Some((1710054000000000, 1710122400000000)));
    let schedule = schedule_of(
        &rt,
        rt.alloc(),
        "StartTime=01:59:59\nEndTime=22:00:00\nZoneRule=EST5EDT,M3.2.0,M11.1.0\n",
    )?;
    assert!(rt; schedule.window(1710053999000000) == Some((1710053999000000, 1710122400000000)));
    Ok(())
}

#[test]
fn the_hour_that_comes_twice(rt: HostRuntime) -> Result<(), Fail> {
    let schedule = schedule_of(
        &rt,
        rt.alloc(),
        "StartTime=01:30:00\nEndTime=22:00:00\nZoneRule=EST5EDT,M3.2.0,M11.1.0\n",
    )?;
    assert!(rt; schedule.window(1730611800000000) == Some((1730611800000000, 1730689200000000)));
    assert!(rt; schedule.window(1730611799999999) == None);
    let schedule = schedule_of(
        &rt,
        rt.alloc(),
        "StartTime=22:00:00\nEndTime=01:30:00\nZoneRule=EST5EDT,M3.2.0,M11.1.0\n",
    )?;
    assert!(rt; schedule.window(1730611800000000) == Some((1730599200000000, 1730611800000000)));
    assert!(rt; schedule.window(1730611800000001) == None);
    let schedule = schedule_of(
        &rt,
        rt.alloc(),
        "StartTime=22:00:00\nEndTime=02:00:00\nZoneRule=EST5EDT,M3.2.0,M11.1.0\n",
    )?;
    assert!(rt; schedule.window(1730617200000000) == Some((1730599200000000, 1730617200000000)));
    Ok(())
}

#[test]
fn a_rule_of_the_south(rt: HostRuntime) -> Result<(), Fail> {
    let schedule = schedule_of(
        &rt,
        rt.alloc(),
        "StartTime=02:30:00\nEndTime=22:00:00\nZoneRule=AEST-10AEDT,M10.1.0,M4.1.0/3\n",
    )?;
    assert!(rt; schedule.window(1728145800000000) == Some((1728145800000000, 1728212400000000)));
    assert!(rt; schedule.window(1728145799999999) == None);
    assert!(rt; schedule.window(1712417400000000) == Some((1712417400000000, 1712491200000000)));
    assert!(rt; schedule.window(1712417399999999) == None);
    let schedule = schedule_of(
        &rt,
        rt.alloc(),
        "StartTime=22:00:00\nEndTime=02:30:00\nZoneRule=AEST-10AEDT,M10.1.0,M4.1.0/3\n",
    )?;
    assert!(rt; schedule.window(1712417400000000) == Some((1712401200000000, 1712417400000000)));
    assert!(rt; schedule.window(1712417400000001) == None);
    Ok(())
}

#[test]
fn the_first_days_of_1970(rt: HostRuntime) -> Result<(), Fail> {
    let schedule = schedule_of(&rt, rt.alloc(), "StartTime=22:00:00\nEndTime=02:00:00\n")?;
    assert!(rt; schedule.window(0) == Some((0, 7200000000)));
    assert!(rt; schedule.window(7200000000) == Some((0, 7200000000)));
    assert!(rt; schedule.window(7200000001) == None);
    let schedule = schedule_of(&rt, rt.alloc(), "StartTime=00:00:00\nEndTime=00:00:00\n")?;
    assert!(rt; schedule.window(0) == Some((0, 86400000000)));
    let schedule = schedule_of(
        &rt,
        rt.alloc(),
        "StartTime=08:00:00\nEndTime=17:00:00\nZoneRule=EST5EDT,M3.2.0,M11.1.0\n",
    )?;
    assert!(rt; schedule.window(0) == None);
    let schedule = schedule_of(
        &rt,
        rt.alloc(),
        "StartTime=17:00:00\nEndTime=08:00:00\nZoneRule=EST5EDT,M3.2.0,M11.1.0\n",
    )?;
    assert!(rt; schedule.window(0) == Some((0, 46800000000)));
    let schedule = schedule_of(
        &rt,
        rt.alloc(),
        "StartTime=18:00:00\nEndTime=17:00:00\nStartDay=sunday\nEndDay=Friday\n",
    )?;
    assert!(rt; schedule.window(43200000000) == Some((0, 147600000000)));
    let schedule = schedule_of(&rt, rt.alloc(), "StartTime=08:00:00\nEndTime=17:00:00\n")?;
    assert!(rt; schedule.window(0) == None);
    let schedule = schedule_of(
        &rt,
        rt.alloc(),
        "StartTime=08:00:00\nEndTime=17:00:00\nZoneRule=AEST-10AEDT,M10.1.0,M4.1.0/3\n",
    )?;
    assert!(rt; schedule.window(0) == Some((0, 21600000000)));
    Ok(())
}

#[test]
fn the_last_second_of_2099(rt: HostRuntime) -> Result<(), Fail> {
    let schedule = schedule_of(&rt, rt.alloc(), "StartTime=22:00:00\nEndTime=02:00:00\n")?;
    assert!(rt; schedule.window(4102444799999999) == Some((4102437600000000, 4102452000000000)));
    let schedule = schedule_of(&rt, rt.alloc(), "StartTime=00:00:00\nEndTime=00:00:00\n")?;
    assert!(rt; schedule.window(4102444799999999) == Some((4102358400000000, 4102444800000000)));
    let schedule = schedule_of(
        &rt,
        rt.alloc(),
        "StartTime=08:00:00\nEndTime=20:00:00\nZoneRule=EST5EDT,M3.2.0,M11.1.0\n",
    )?;
    assert!(rt; schedule.window(4102444799999999) == Some((4102405200000000, 4102448400000000)));
    let schedule = schedule_of(
        &rt,
        rt.alloc(),
        "StartTime=22:00:00\nEndTime=20:00:00\nZoneRule=EST5EDT,M3.2.0,M11.1.0\n",
    )?;
    assert!(rt; schedule.window(4102444799999999) == Some((4102369200000000, 4102448400000000)));
    let schedule = schedule_of(
        &rt,
        rt.alloc(),
        "StartTime=08:00:00\nEndTime=17:00:00\nZoneRule=AEST-10AEDT,M10.1.0,M4.1.0/3\n",
    )?;
    assert!(rt; schedule.window(4102444799999999) == Some((4102434000000000, 4102466400000000)));
    let schedule = schedule_of(
        &rt,
        rt.alloc(),
        "StartTime=18:00:00\nEndTime=17:00:00\nStartDay=sunday\nEndDay=Friday\n",
    )?;
    assert!(rt; schedule.window(4102444799999999) == Some((4102077600000000, 4102506000000000)));
    Ok(())
}

#[test]
fn clocks_far_from_utc(rt: HostRuntime) -> Result<(), Fail> {
    let schedule = schedule_of(
        &rt,
        rt.alloc(),
        "StartTime=12:00:00\nEndTime=13:00:00\nZoneRule=XXX24\n",
    )?;
    assert!(rt; schedule.window(1704198600000000) == Some((1704196800000000, 1704200400000000)));
    let schedule = schedule_of(
        &rt,
        rt.alloc(),
        "StartTime=12:00:00\nEndTime=13:00:00\nZoneRule=XXX-24\n",
    )?;
    assert!(rt; schedule.window(1704198600000000) == Some((1704196800000000, 1704200400000000)));
    let schedule = schedule_of(
        &rt,
        rt.alloc(),
        "StartTime=09:15:00\nEndTime=10:00:00\nZoneRule=<+0545>-5:45\n",
    )?;
    assert!(rt; schedule.window(1704167100000000) == Some((1704166200000000, 1704168900000000)));
    Ok(())
}

#[test]
fn without_a_start_time_it_is_all_time(rt: HostRuntime) -> Result<(), Fail> {
    let schedule = schedule_of(&rt, rt.alloc(), "")?;
    assert!(rt; schedule.window(0) == Some((0, 18446744073709551615)));
    let schedule = schedule_of(&rt, rt.alloc(), "ZoneRule=EST5EDT,M3.2.0,M11.1.0\n")?;
    assert!(rt; schedule.window(4102444799999999) == Some((0, 18446744073709551615)));
    Ok(())
}

#[test]
fn what_is_no_rule_is_refused(rt: HostRuntime) -> Result<(), Fail> {
    let hours = "StartTime=08:00:00\nEndTime=17:00:00\nZoneRule=E\n";
    assert!(rt; is_bad_rule(&rt, rt.alloc(), hours)?);
    assert!(rt; is_bad_rule(&rt, rt.alloc(), "ZoneRule=E\n")?);
    assert!(rt; is_bad_rule(&rt, rt.alloc(), "ZoneRule=\n")?);
    assert!(rt; is_bad_rule(&rt, rt.alloc(), "ZoneRule=EST5EDT,M3.2.0,M11.1.0x\n")?);
    assert!(rt; is_bad_rule(&rt, rt.alloc(), "ZoneRule=EST5EDT,M3.2.7,M11.1.0\n")?);
    assert!(rt; is_bad_rule(&rt, rt.alloc(), "ZoneRule=EST5EDT\n")?);
    assert!(rt; is_bad_rule(&rt, rt.alloc(), "ZoneRule=Europe/London\n")?);
    assert!(rt; !is_bad_rule(&rt, rt.alloc(), "ZoneRule=EST5\n")?);
    Ok(())
}

#[test]
fn times_of_one_window_and_of_two(rt: HostRuntime) -> Result<(), Fail> {
    let schedule = schedule_of(&rt, rt.alloc(), "StartTime=22:00:00\nEndTime=02:00:00\n")?;
    assert!(rt; schedule.same(1704232800000000, 1704247200000000));
    assert!(rt; !schedule.same(1704232800000000, 1704247200000001));
    assert!(rt; !schedule.same(1704247200000001, 1704247200000001));
    // the same hour of the next day
    assert!(rt; !schedule.same(1704240000000000, 1704326400000000));
    let always = schedule_of(&rt, rt.alloc(), "")?;
    assert!(rt; always.same(0, 4102444799999999));
    Ok(())
}
