// The check and the run of a sheet's bytes. Beside the status stands a place: how many steps passed or ended, the step that
// was refused or stopped, or the byte at fault; where there is none (15, 16) it is kept.
ghost use Rattle.std.specs.Prelude.{◌≡◌};
ghost use Rattle.std.specs.Int.{w64};
ghost use Rattle.refusal.specs.Count.{count_told};
ghost use Rattle.step.specs.Run.{run_op};
ghost use Rattle.panel.specs.Answer.{running};
ghost use Rattle.desk.specs.Answer.{checking};
ghost use Rattle.export.specs.Sheets.{status_of, place_of, Told, checked, ran};

use refusal::Fault;

// The status of an answer, and the place beside it.
fn status(answer: Result<usize, Fault>, place: &mut usize) -> u8
    ensures { (result ≡ status_of (count_told answer)) × (place.new ≡ place_of (count_told answer) place.old) }
{
    match answer {
        Ok(count) => {
            *place = count;
            0
        }
        Err(Fault::AtStep(why, at)) => {
            *place = at;
            why.number()
        }
        Err(Fault::AtByte(why, at)) => {
            *place = at;
            why.number()
        }
        Err(Fault::By(why)) => why.number(),
    }
}

// Checks a sheet: five numbers a step go into the room.
pub fn tunisaypa_check(bytes: &[u8], room: &mut [i64], place: &mut usize) -> u8
    ensures { Told (checked (checking w64 bytes.now room.old)) room.old place.old result room.new place.new }
{
    status(desk::check(bytes, room), place)
}

// Runs a sheet on its inputs: a number a step goes into the room.
pub fn tunisaypa_run(bytes: &[u8], inputs: &[i64], room: &mut [i64], place: &mut usize) -> u8
    ensures { Told (ran (running (run_op w64) bytes.now inputs.now room.old)) room.old place.old result room.new place.new }
{
    status(panel::run(bytes, inputs, room), place)
}
