// The check and the run of a sheet's bytes.
ghost use Rattle.std.specs.Int.{w64};
ghost use Rattle.step.specs.Run.{run_op};
ghost use Rattle.panel.specs.Answer.{running};
ghost use Rattle.desk.specs.Answer.{checking};
ghost use Rattle.export.specs.Sheets.{Told, checked, ran};

// Checks a sheet: five numbers a step go into the room.
#[unsafe(no_mangle)]
pub extern "C" fn tunisaypa_check(bytes: &[u8], room: &mut [i64], place: &mut usize) -> u8
    ensures { Told (checked (checking w64 bytes.now room.old)) room.old place.old result room.new place.new }
{
    export::sheets::tunisaypa_check(bytes, room, place)
}

// Runs a sheet on its inputs: a number a step goes into the room.
#[unsafe(no_mangle)]
pub extern "C" fn tunisaypa_run(
    bytes: &[u8],
    inputs: &[i64],
    room: &mut [i64],
    place: &mut usize,
) -> u8
    ensures { Told (ran (running (run_op w64) bytes.now inputs.now room.old)) room.old place.old result room.new place.new }
{
    export::sheets::tunisaypa_run(bytes, inputs, room, place)
}
